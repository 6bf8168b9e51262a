//! The law of compaction, for every list of records. It does nothing at run time.
ghost use Rattle.std.specs.Prelude.{List, []};
ghost use Rattle.cw_bytes.specs.declared.applied.Applied.{Applied};
ghost use Rattle.cw_config.specs.Compaction.{compact_configs, configs_in, AreConfigs, AreAccepted, SaysTheSameBehind};

/// Over a compacted log every look-up answers as over the whole one, now and behind any further records that may
/// stand there.
pub fn compacted_configs_say_the_same()
    ensures { (frames : List (List Applied)) → AreConfigs frames → AreAccepted [] (configs_in frames) →
        SaysTheSameBehind (configs_in (compact_configs frames)) (configs_in frames) }
{}
