//! Worked examples.

ghost use Rattle.std.specs.Prelude.{◌≡◌, [], ◌∷◌};
ghost use Rattle.aggregation_cost.specs.Cost.{cost};
ghost use Rattle.aggregation_cost.specs.Space.{key_blocks};
ghost use Rattle.aggregation_cost.specs.Passes.{of_row, of_group};
ghost use Rattle.aggregation_cost.specs.Examples.{of_lengths, wide_states, hashed, hashed_wide_states, numbered_rows, repeated_rows};

/// Tables of one, two and three groups, and of as many as 256 buckets are for. Twelve keys have one hash, and go down past the eighth
/// level. Seven keys have one hash, and come twice each. 40 keys are hashed: over 60 records, and each once. So are 220 keys, each once.
pub fn small_tables()
    ensures one_group { cost (wide_states 32768) (numbered_rows 12)
        ≡ record { passes = 12; spilled = 66; pages = 11; most_held = 32768 } }
    ensures two_groups { cost (wide_states 40960) (repeated_rows 7 14)
        ≡ record { passes = 4; spilled = 18; pages = 8; most_held = 40960 } }
    ensures three_groups { cost (hashed_wide_states 49152) (repeated_rows 40 60)
        ≡ record { passes = 19; spilled = 56; pages = 32; most_held = 49152 } }
    ensures one_hashed_group { cost (hashed_wide_states 32768) (numbered_rows 40)
        ≡ record { passes = 40; spilled = 62; pages = 39; most_held = 32768 } }
    ensures one_array { cost (hashed 32768) (numbered_rows 220)
        ≡ record { passes = 16; spilled = 28; pages = 15; most_held = 32768 } }
{}

/// Keys fill blocks from the left. Two of 4,096 bytes share a block, two of 4,097 don't. One that is longer than a
/// block has a block of its own, and the block that was begun is filled further.
pub fn keys_in_blocks()
    ensures shared { key_blocks (of_lengths (4096 ∷ 4096 ∷ [])) ≡ 8192 }
    ensures not_split { key_blocks (of_lengths (4097 ∷ 4097 ∷ [])) ≡ 16384 }
    ensures own_block { key_blocks (of_lengths (4096 ∷ 8193 ∷ 4096 ∷ [])) ≡ 16392 }
    ensures of_empty_keys { key_blocks (of_lengths (0 ∷ 0 ∷ [])) ≡ 8192 }
{}

/// What a row and a group take on a tape.
pub fn records_on_tape()
    ensures row { (of_row (1 ∷ 97 ∷ 0 ∷ []) (1 ∷ 97 ∷ 0 ∷ 2 ∷ [])).on_tape ≡ 13 }
    ensures group { (of_group (1 ∷ 97 ∷ 0 ∷ []) 8).on_tape ≡ 22 }
{}
