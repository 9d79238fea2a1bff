//! Laws of the machine that a script runs.

ghost use Rattle.std.specs.Prelude.{◌≡◌, IsTrue, List, Option, ℕ};
ghost use Rattle.grouping_model.specs.declared.limits.TheConstants.{LAST_ORIGIN, LAST_NUMBER, MAX_ROWS, MAX_COLUMNS, MAX_KEYS, MAX_CALLS};
ghost use Rattle.grouping_model.specs.declared.limits.TheConstants.{MAX_ITEMS, MAX_QUERY_LEN, DEEPEST_CONDITION, MAX_OPEN, MAX_NAME_LEN};
ghost use Rattle.grouping_model.specs.declared.limits.TheConstants.{MAX_TEXT_LEN, MAX_INPUT_LEN};
ghost use Rattle.grouping_model.specs.World.{World};
ghost use Rattle.hash_agg.specs.declared.means.TheConstants.{MIN_LIMIT, MAX_LIMIT, DEFAULT_LIMIT};
ghost use Rattle.script_io.specs.Output.{StopsShort};
ghost use Rattle.script_io.specs.Records.{Record};
ghost use Rattle.script_commands.specs.Commands.{Command, Request};
ghost use Rattle.refusals.specs.Batches.{Fed};
ghost use Rattle.script_machine.specs.Agreement.{OneBatchEach, AreAmong, KnowTheSame, PrintTheSame, after_all, world_of};
ghost use Rattle.script_machine.specs.Example.{HasFirstOutput};
ghost use Rattle.script_machine.specs.Exact.{AreExact, Exactly};
ghost use Rattle.script_machine.specs.Headline.{Claim, SameKnowledgeSameBytes};
ghost use Rattle.script_machine.specs.Output.{Disk, IsOutput, WritesFront};
ghost use Rattle.script_machine.specs.Text.{joined};
ghost use Rattle.script_machine.specs.Machine.{State, Reply, Agrees, start};

/// A command has one reply with its reason, as long as memory suffices: the machine's step is a function of the state and the command.
/// There are never two replies, nor none.
pub fn one_reply()
    ensures not_two { (old : State) (request : Request) (owned : List Record) (a b : Reply) →
        Exactly old request owned a → Exactly old request owned b → a ≡ b }
    ensures not_none { (old : State) (request : Request) (owned : List Record) →
        ((reply : Reply) → ¬ (Exactly old request owned reply)) → ⊥ }
{}

/// An answer is the table of the query over each origin's unbroken prefix of what the replica knows. A replica that is fed a batch knows
/// one more, and a merge makes known what either replica knew.
pub fn what_replies_mean()
    ensures { Claim }
{}

/// Two replicas of one query that know the same batches print and save the same bytes, in one script or in two: the same answer, the same
/// list of what is known, and the same saved file, under any name. The order of the batches and repeats make no difference. So it is in
/// their outputs, and in the states of any replies.
pub fn same_batches_same_bytes()
    ensures outputs { SameKnowledgeSameBytes }
    ensures states { (here there : List Reply) (a b : List ℕ) (history other : World) →
        KnowTheSame (after_all start here) (after_all start there) a b history other →
        PrintTheSame (after_all start here) (after_all start there) a b history other }
{}

/// The clauses about prefixes of an output imply the same for the whole, and for a run that stopped: over an honest disk, if all commands
/// agree with a world, the whole output is right. A run that stopped wrote a prefix of an output of all commands. Each one that was not
/// answered may be refused there because memory ran out.
pub fn outputs_as_a_whole()
    ensures whole { (disk : Disk) (commands : List Command) (replies : List Reply) (texts : List (List ℕ)) →
        IsOutput disk commands replies texts → IsTrue disk.honest → AreExact commands replies texts }
    ensures front { (disk : Disk) (commands : List Command) (old new : Option (List ℕ)) →
        WritesFront disk commands (StopsShort old new) →
        (replies : List Reply) × (texts : List (List ℕ)) × IsOutput disk commands replies texts × StopsShort old new (joined texts) }
{}

/// A script agrees with a world if its origins give each number to one batch: the world of the batches that are fed.
#[tactic(auto, using(crate::proofs::AgreementLaws::agrees))]
pub fn one_batch_each_agrees()
    ensures { (feds : List Fed) (commands : List Command) (replies : List Reply) →
        OneBatchEach feds → AreAmong feds start commands replies →
        Agrees (world_of feds) start commands replies }
{}

/// README's first script has the output that README shows: it is right to the byte, and no other output without a refusal is right.
pub fn first_example()
    ensures { HasFirstOutput }
{}

/// The limits of batches, scripts and files, in digits. Definitions and code cite them by their names.
pub fn batch_limits_in_digits()
    ensures origins { LAST_ORIGIN ≡ 1023 }
    ensures numbers { LAST_NUMBER ≡ 4294967295 }
    ensures rows_of_a_batch { MAX_ROWS ≡ 1048576 }
    ensures bytes_of_a_text { MAX_TEXT_LEN ≡ 255 }
    ensures bytes_of_an_input { MAX_INPUT_LEN ≡ 67108864 }
{}

/// The limits of columns and queries, in digits.
pub fn query_limits_in_digits()
    ensures columns { MAX_COLUMNS ≡ 32 }
    ensures bytes_of_a_name { MAX_NAME_LEN ≡ 63 }
    ensures keys { MAX_KEYS ≡ 16 }
    ensures aggregates { MAX_CALLS ≡ 32 }
    ensures items { MAX_ITEMS ≡ 64 }
    ensures bytes_of_a_query { MAX_QUERY_LEN ≡ 16384 }
    ensures depth_of_a_condition { DEEPEST_CONDITION ≡ 64 }
    ensures open_parentheses { MAX_OPEN ≡ 64 }
{}

/// The least, the greatest and the default limit of memory, in bytes.
pub fn memory_limits_in_digits()
    ensures least { MIN_LIMIT ≡ 65536 }
    ensures greatest { MAX_LIMIT ≡ 1099511627776 }
    ensures default { DEFAULT_LIMIT ≡ 4194304 }
{}
