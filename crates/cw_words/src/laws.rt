//! What the reading of words comes to at words that are written out.
ghost use Rattle.std.specs.Prelude.{◌≡◌, None, [], ◌∷◌, codes};
ghost use Rattle.cw_words.specs.Asked.{audit_with, command_of, drive_with, gen_with, serve_with};

/// The law of the program's words: options have defaults and come in any order, also between values without a name,
/// with `=` or, where the value doesn't begin with `-`, a word of its own; and what is more, missing, out of range or a
/// question for help is no command.
pub fn words_are_read()
    ensures alone { command_of (codes "drive" ∷ []) ≡ drive_with (codes "connect-cluster") 300000 }
    ensures given { command_of (codes "drive" ∷ codes "--delay" ∷ codes "1099511627776" ∷ codes "--group=g" ∷ []) ≡
        drive_with (codes "g") 1099511627776 }
    ensures dashes { command_of (codes "drive" ∷ codes "--delay=7" ∷ codes "--" ∷ []) ≡
        drive_with (codes "connect-cluster") 7 }
    ensures minus { command_of (codes "drive" ∷ codes "--group=-g" ∷ []) ≡ drive_with (codes "-g") 300000 }
    ensures minus_apart { command_of (codes "drive" ∷ codes "--group" ∷ codes "-g" ∷ []) ≡ None }
    ensures audit { command_of (codes "audit" ∷ codes "--group" ∷ codes "g" ∷ []) ≡ audit_with (codes "g") 300000 }
    ensures script { command_of (codes "gen" ∷ codes "7" ∷ codes "20000" ∷ []) ≡
        gen_with 7 20000 (codes "connect-cluster") 300000 }
    ensures script_given { command_of (codes "gen" ∷ codes "--delay=0" ∷ codes "18446744073709551615" ∷
        codes "--group" ∷ codes "g" ∷ codes "1000000" ∷ []) ≡ gen_with 18446744073709551615 1000000 (codes "g") 0 }
    ensures script_without { command_of (codes "gen" ∷ codes "7" ∷ []) ≡ None }
    ensures script_none { command_of (codes "gen" ∷ codes "7" ∷ codes "0" ∷ []) ≡ None }
    ensures script_above { command_of (codes "gen" ∷ codes "7" ∷ codes "1000001" ∷ []) ≡ None }
    ensures script_minus { command_of (codes "gen" ∷ codes "-1" ∷ codes "4" ∷ []) ≡ None }
    ensures script_more { command_of (codes "gen" ∷ codes "7" ∷ codes "4" ∷ codes "4" ∷ []) ≡ None }
    ensures server { command_of (codes "serve" ∷ []) ≡ serve_with 3 2 4 1000 (codes "connect-cluster") 300000 }
    ensures server_given { command_of (codes "serve" ∷ codes "--conns=10000" ∷ codes "--handlers" ∷ codes "64" ∷
        codes "--workers=1" ∷ codes "--runners=64" ∷ codes "--group=g" ∷ codes "--delay=0" ∷ []) ≡
        serve_with 1 64 64 10000 (codes "g") 0 }
    ensures server_none { command_of (codes "serve" ∷ codes "--workers=0" ∷ []) ≡ None }
    ensures server_above { command_of (codes "serve" ∷ codes "--conns=10001" ∷ []) ≡ None }
    ensures server_of_drive { command_of (codes "drive" ∷ codes "--workers=1" ∷ []) ≡ None }
    ensures nothing { command_of [] ≡ None }
    ensures unknown { command_of (codes "run" ∷ []) ≡ None }
    ensures more { command_of (codes "drive" ∷ codes "more" ∷ []) ≡ None }
    ensures twice { command_of (codes "drive" ∷ codes "--delay=1" ∷ codes "--delay=1" ∷ []) ≡ None }
    ensures missing { command_of (codes "drive" ∷ codes "--group" ∷ []) ≡ None }
    ensures group { command_of (codes "drive" ∷ codes "--group=" ∷ []) ≡ None }
    ensures above { command_of (codes "drive" ∷ codes "--delay" ∷ codes "1099511627777" ∷ []) ≡ None }
    ensures zeros { command_of (codes "drive" ∷ codes "--delay" ∷ codes "01" ∷ []) ≡ None }
    ensures help { command_of (codes "--help" ∷ []) ≡ None }
    ensures help_word { command_of (codes "help" ∷ []) ≡ None }
    ensures help_of_drive { command_of (codes "drive" ∷ codes "-h" ∷ []) ≡ None }
    ensures version { command_of (codes "--version" ∷ []) ≡ None }
{}
