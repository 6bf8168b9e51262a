//! The laws of keys and values, for all that reads and writes them.
ghost use Rattle.std.specs.Prelude.{◌≡◌, ◌<◌, ◌^◌, ℕ, List, Option, Some, Ok, false, true, option_map};
ghost use Rattle.cw_types.specs.declared.ids.Item.{Item};
ghost use Rattle.cw_types.specs.declared.ids.PartKey.{PartKey};
ghost use Rattle.cw_keys.specs.declared.config_key.ConfigKey.{ConfigKey};
ghost use Rattle.cw_keys.specs.declared.config_value.ConfigValue.{ConfigValue};
ghost use Rattle.cw_keys.specs.declared.status.StatusValue.{StatusValue};
ghost use Rattle.cw_keys.specs.ConfigKeys.{config_key, config_key_text, IsConfigKey};
ghost use Rattle.cw_keys.specs.Configs.{config_of, config_text, is_record, IsConfigValue};
ghost use Rattle.cw_keys.specs.Statuses.{status_item, status_key, status_of, status_text, IsItem, IsStatus};
ghost use Rattle.cw_keys.specs.Parts.{part_of, part_text, is_raw, IsPart};
ghost use Rattle.cw_keys.specs.Offsets.{offset_of, offset_text};

/// The law of keys: each key of a config, status or offset record is read again from its bytes, and no
/// other bytes are a key.
pub fn keys_are_their_texts()
    ensures config_again { (key : ConfigKey) → IsConfigKey key → config_key (config_key_text key) ≡ Some key }
    ensures config_only { (key : ConfigKey) (bytes : List ℕ) → config_key bytes ≡ Some key →
        (bytes ≡ config_key_text key) × IsConfigKey key }
    ensures status_again { (item : Item) → IsItem item → status_item (status_key item) ≡ Some item }
    ensures status_only { (item : Item) (bytes : List ℕ) → status_item bytes ≡ Some item →
        (bytes ≡ status_key item) × IsItem item }
    ensures part_again { (part : PartKey) → IsPart part → is_raw part ≡ false → part_of (part_text part) ≡ Some part }
    ensures part_only { (part : PartKey) (bytes : List ℕ) → part_of bytes ≡ Some part →
        (bytes ≡ part_text part) × IsPart part × (is_raw part ≡ false) }
{}

/// The law of values: each value is read again from what is written for it, under the key that it was
/// written with. Values have other spellings too, since their members may stand in any order.
pub fn values_are_read_again()
    ensures config { (key : ConfigKey) (value : Option ConfigValue) → IsConfigKey key → IsConfigValue value →
        is_record key value ≡ true → config_of (config_key_text key) (option_map config_text value) ≡ Ok (key, value) }
    ensures status { (item : Item) (status : StatusValue) → IsItem item → IsStatus status →
        status_of (status_key item) (status_text status) ≡ Ok (item, status) }
    ensures offset { (part : PartKey) (n : ℕ) → n < 2 ^ 64 → offset_of part (offset_text part n) ≡ Some n }
{}
