//! Records of the config log: a key, and a value of its kind or none.
ghost use Rattle.std.specs.Prelude.{◌≡◌, true, IfOk, IfErr, Ok, option_map};
ghost use Rattle.cw_types.specs.Answers.{Gives};
ghost use Rattle.cw_keys.specs.ConfigKeys.{config_key_text};
ghost use Rattle.cw_keys.specs.Configs.{config_of, config_text, is_record, IsTextOf};

use crate::config_key::{ConfigKey, may_be_removed, read_config_key, write_key};
use crate::config_value::{ConfigValue, read_value_of, write_value};
use crate::fault::KeyFault;
use std::alloc::{AllocError, Global};

/// The record that a key and a value of the config log are; without a value it removes what its key
/// names. BadKey comes just where the key is none of Connect's config topic, else BadValue just where
/// the value is none of the key's kind, or is missing under a key that can't be removed.
pub fn read_config(
    alloc: Global,
    key: &[u8],
    value: Option<&[u8]>,
) -> Result<(ConfigKey, Option<ConfigValue>), KeyFault>
    ensures record { Gives KeyFault.Memory result (config_of key.now (option_map (λ text. text.now) value.entry)) }
    ensures writable { IfOk result (λ read. is_record read.0 read.1 ≡ true) }
{
    let Some(key) = read_config_key(alloc, key)? else {
        return Err(KeyFault::BadKey);
    };
    let Some(text) = value else {
        return if may_be_removed(&key) {
            Ok((key, None))
        } else {
            Err(KeyFault::BadValue)
        };
    };
    match read_value_of(alloc, &key, text)? {
        Some(value) => Ok((key, Some(value))),
        None => Err(KeyFault::BadValue),
    }
}

// The text of a value, if there is one.
fn write_some(alloc: Global, value: Option<&ConfigValue>) -> Result<Option<Vec<u8>>, AllocError>
    ensures text { IfOk result (λ text.
        option_map (λ t. t.items) text ≡ option_map (λ v. config_text v.now) value.entry) }
    ensures again { IfOk result (λ text.
        IsTextOf (option_map (λ t. t.items) text) (option_map (λ v. v.now) value.entry)) }
{
    match value {
        Some(value) => Ok(Some(write_value(alloc, value)?)),
        None => Ok(None),
    }
}

/// The bytes of a record of the config log. The value is of the key's kind, and only a connector and a
/// target state come without one.
pub fn write_config(
    alloc: Global,
    key: &ConfigKey,
    value: Option<&ConfigValue>,
) -> Result<(Vec<u8>, Option<Vec<u8>>), KeyFault>
    requires { is_record key.now (option_map (λ v. v.now) value) ≡ true }
    ensures key { IfOk result (λ bytes. bytes.0.items ≡ config_key_text key.now) }
    ensures value { IfOk result (λ bytes.
        option_map (λ t. t.items) bytes.1 ≡ option_map (λ v. config_text v.now) value.entry) }
    ensures again { IfOk result (λ bytes.
        config_of bytes.0.items (option_map (λ t. t.items) bytes.1) ≡
        Ok (key.now, option_map (λ v. v.now) value.entry)) }
    ensures memory { IfErr result (λ fault. fault ≡ KeyFault.Memory) }
{
    let bytes = write_key(alloc, key)?;
    Ok((bytes, write_some(alloc, value)?))
}
