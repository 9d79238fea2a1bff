//! What a query's answer over known batches of rows means, defined independently of how anything is stored, with laws
//! and examples.
#![tactic(auto)]

mod delivered;
pub mod limits;

ghost use Rattle.std.specs.Prelude.{◌≡◌, ◌-◌, nat_lt, filter, ◌+◌, ◌<◌, ◌≤◌, ◌≤ℤ◌, ◌↔◌, ℕ, ℤ, Bool, IsSome, IsTrue, ◌≢◌, FitsSigned, List};
ghost use Rattle.std.specs.Prelude.{length, Contains, [], ◌∷◌, pos, negsuc, ◌||◌, ◌++◌, true, false, codes, if◌then◌else◌};
ghost use Rattle.std.specs.Int.{w64};
ghost use Rattle.std.specs.Ordering.{eq_by_cmp, nat_cmp};
ghost use Rattle.std.specs.List.{flat_map};
ghost use Rattle.std.specs.List.Sorted.{IsStrictlySortedBy, IsSortedBy, IsStableBy, IsPermutation};
ghost use Rattle.grouping_model.specs.Query.{Query, Aggregate};
ghost use Rattle.grouping_model.specs.Grouping.{argument, arguments, selected, key_of, keys, group, partials, column_of, part};
ghost use Rattle.grouping_model.specs.Parts.{keys_of, partials_at, combine_parts, with_row};
ghost use Rattle.grouping_model.specs.Rising.{put, distinct, is_among};
ghost use Rattle.grouping_model.specs.Combining.{combine, transition};
ghost use Rattle.grouping_model.specs.World.{World, Batch, Knowledge, batch_cmp, knowing, nothing, knows, learn, union, IsUnbroken, prefix};
ghost use Rattle.grouping_model.specs.World.{early, origins, count_up, batch_rows, origin_rows};
ghost use Rattle.std.specs.Cmp.{IsTotalOrder};
ghost use Rattle.std.specs.declared.cmp.Ordering.TheVariants.{Less};
ghost use Rattle.grouping_model.specs.Condition.{Truth, Unknown, Comparison, truth_not, truth_and, truth_or, outcome_cmp, by_order, truth};
ghost use Rattle.grouping_model.specs.Condition.{as_outcome, is_met};
ghost use Rattle.grouping_model.specs.Answer.{answer, answer_over};
ghost use Rattle.grouping_model.specs.Order.{Term, comes_before, ordered};
ghost use Rattle.grouping_model.specs.Datum.{Datum, Kind, HasKind, HasKinds, datum_cmp, Row, row_cmp, same_row, Null, Boolean, Text};
ghost use Rattle.grouping_model.specs.Aggregates.{bits_of_all, bits_of_some, bits_of_odd, Function, partial, Outcome, Plain, Numeric};
ghost use Rattle.grouping_model.specs.Aggregates.{least, greatest, has_bit, number_of_bits, Count_rows, Count, Partial, Counted, non_null};
ghost use Rattle.grouping_model.specs.Examples.{sums, three_rows, three_batches, one_to_five, six_and_eight, triple, oslo, bergen};
ghost use Rattle.grouping_model.specs.Examples.{grand_total, any_rows, extremes, of_nulls, a, nulls_and_numbers, last_unknown, big_ones};
ghost use Rattle.grouping_model.specs.Examples.{not_itself, bits_and_booleans, twelve_and_ten, number, one_absent, by_sum};
ghost use Rattle.grouping_model.specs.Examples.{by_sum_nulls_last, summed, absent};

pub use delivered::Delivered;

/// Uniting what is known doesn't depend on order, grouping or repetition, and gives what either side knows.
pub fn uniting()
    ensures commutative { (a b : Knowledge) → union a b ≡ union b a }
    ensures associative { (a b c : Knowledge) → union (union a b) c ≡ union a (union b c) }
    ensures idempotent { (a : Knowledge) → union a a ≡ a }
    ensures neutral { (a : Knowledge) → union nothing a ≡ a }
    ensures members { (a b : Knowledge) (batch : Batch) →
        knows (union a b) batch ≡ (knows a batch || knows b batch) }
    ensures learned { (a : Knowledge) (new batch : Batch) →
        knows (learn a new) batch ≡ (eq_by_cmp batch_cmp batch new || knows a batch) }
    ensures determined { (a b : Knowledge) → ((batch : Batch) → knows a batch ≡ knows b batch) →
        a ≡ b }
{}

/// What is known is exactly a set of batches, and answers depend on it alone. Where the same batches are known, the
/// answers are the same, in whatever order and however often these were learned. The rows of a batch that is not known
/// change no answer.
pub fn answers_of_the_known()
    ensures listed { (batches : List Batch) (batch : Batch) →
        IsTrue (knows (knowing batches) batch) ↔ Contains batches batch }
    ensures same_knowledge { (query : Query) (world : World) (a b : Knowledge) →
        ((batch : Batch) → knows a batch ≡ knows b batch) →
        answer query world a ≡ answer query world b }
    ensures known_alone { (query : Query) (world other : World) (knowledge : Knowledge) →
        ((origin number : ℕ) → IsTrue (knows knowledge (origin, number)) →
        world origin number ≡ other origin number) →
        answer query world knowledge ≡ answer query other knowledge }
{}

/// What a union knows of an origin. Its prefix is no shorter than on either side, and ends before the first number that neither side knows.
/// Its early numbers are those of either side above that prefix. Its rows are those of one side's prefix, then those of the batches that
/// follow. The origins are those of either side.
pub fn united_prefixes()
    ensures longer { (a b : Knowledge) (origin : ℕ) →
        (prefix a origin ≤ prefix (union a b) origin)
        × (prefix b origin ≤ prefix (union a b) origin) }
    ensures prefix { (a b : Knowledge) (origin upto : ℕ) → prefix a origin ≤ upto →
        prefix b origin ≤ upto →
        ((number : ℕ) → prefix a origin < number → prefix b origin < number → number ≤ upto →
        IsTrue (knows a (origin, number) || knows b (origin, number))) →
        (knows a (origin, upto + 1) || knows b (origin, upto + 1)) ≡ false →
        prefix (union a b) origin ≡ upto }
    ensures early { (a b : Knowledge) (origin : ℕ) →
        early (union a b) origin ≡ filter (nat_lt (prefix (union a b) origin))
        (distinct nat_cmp (early a origin ++ early b origin)) }
    ensures rows { (world : World) (a b : Knowledge) (origin : ℕ) →
        origin_rows world (union a b) origin ≡ origin_rows world a origin
        ++ flat_map (batch_rows world origin)
        (count_up (prefix a origin + 1) (prefix (union a b) origin - prefix a origin)) }
    ensures origins { (a b : Knowledge) →
        origins (union a b) ≡ distinct nat_cmp (origins a ++ origins b) }
{}

/// The unbroken prefix of an origin: all batches up to it are known, and it is the largest such number.
pub fn unbroken_prefix()
    ensures unbroken { (knowledge : Knowledge) (origin : ℕ) →
        IsUnbroken knowledge origin (prefix knowledge origin) }
    ensures largest { (knowledge : Knowledge) (origin n : ℕ) → IsUnbroken knowledge origin n →
        n ≤ prefix knowledge origin }
{}

/// Learning one more batch. If it is known already, nothing changes. If it is not next to its origin's prefix, that
/// prefix stays. If it is, the prefix then ends before the first number that is not known.
pub fn learning()
    ensures known { (knowledge : Knowledge) (batch : Batch) → IsTrue (knows knowledge batch) →
        learn knowledge batch ≡ knowledge }
    ensures stays { (knowledge : Knowledge) (batch : Batch) (origin : ℕ) →
        batch ≢ (origin, prefix knowledge origin + 1) →
        prefix (learn knowledge batch) origin ≡ prefix knowledge origin }
    ensures grows { (knowledge : Knowledge) (origin upto : ℕ) → prefix knowledge origin + 1 ≤ upto →
        ((number : ℕ) → prefix knowledge origin + 1 < number → number ≤ upto →
        IsTrue (knows knowledge (origin, number))) → knows knowledge (origin, upto + 1) ≡ false →
        prefix (learn knowledge (origin, prefix knowledge origin + 1)) origin ≡ upto }
    ensures next { (knowledge : Knowledge) (origin : ℕ) →
        knows knowledge (origin, prefix knowledge origin + 1) ≡ false }
{}

/// The early numbers of an origin are those that are known above its unbroken prefix. The origins are those of which
/// something is known. Both rise.
pub fn early_numbers()
    ensures early_rise { (knowledge : Knowledge) (origin : ℕ) →
        IsStrictlySortedBy nat_cmp (early knowledge origin) }
    ensures early_are { (knowledge : Knowledge) (origin number : ℕ) →
        Contains (early knowledge origin) number
        ↔ (IsTrue (knows knowledge (origin, number)) × (prefix knowledge origin < number)) }
    ensures origins_rise { (knowledge : Knowledge) →
        IsStrictlySortedBy nat_cmp (origins knowledge) }
    ensures origins_are { (knowledge : Knowledge) (origin : ℕ) →
        Contains (origins knowledge) origin
        ↔ ((number : ℕ) × IsTrue (knows knowledge (origin, number))) }
{}

/// The order of values is total, with null last. So is that of tuples, and only equal tuples are the same.
pub fn ordering()
    ensures values { IsTotalOrder datum_cmp }
    ensures tuples { IsTotalOrder row_cmp }
    ensures null_last { (value : Datum) → value ≢ Null → datum_cmp value Null ≡ Less }
    ensures same { (x y : Row) → IsTrue (same_row x y) ↔ (x ≡ y) }
{}

/// Three-valued logic: AND and OR are each other's mirror under NOT, and a comparison by order with null is unknown.
pub fn three_values()
    ensures and_commutes { (s t : Truth) → truth_and s t ≡ truth_and t s }
    ensures not_and { (s t : Truth) → truth_not (truth_and s t)
        ≡ truth_or (truth_not s) (truth_not t) }
    ensures not_not { (s : Truth) → truth_not (truth_not s) ≡ s }
    ensures null_left { (comparison : Comparison) (x : Outcome) →
        by_order comparison (outcome_cmp (Plain Null) x) ≡ Unknown }
    ensures null_right { (comparison : Comparison) (x : Outcome) →
        by_order comparison (outcome_cmp x (Plain Null)) ≡ Unknown }
    ensures kept { (t : Truth) → truth (as_outcome t) ≡ t }
{}

/// The keys strictly rise, and a tuple is a key exactly if a selected row has it. A group's rows are the selected
/// rows that have its key.
pub fn grouping()
    ensures rising { (query : Query) (rows : List Row) →
        IsStrictlySortedBy row_cmp (keys query rows) }
    ensures keys { (query : Query) (rows : List Row) (key : Row) →
        Contains (keys query rows) key
        ↔ ((row : Row) × Contains (selected query rows) row × (key_of query row ≡ key)) }
    ensures members { (query : Query) (rows : List Row) (key row : Row) →
        Contains (group query rows key) row
        ↔ (Contains (selected query rows) row × (key_of query row ≡ key)) }
{}

/// The least member of a list is a member, and none is below it. Every list that is not empty has one. The same holds
/// of the greatest.
pub fn extremes_of_lists()
    ensures least_is { (zs : List ℤ) (z : ℤ) →
        least zs ≡ Some z ↔ (Contains zs z × ((y : ℤ) → Contains zs y → z ≤ℤ y)) }
    ensures least_of_some { (z : ℤ) (zs : List ℤ) → IsSome (least (z ∷ zs)) }
    ensures greatest_is { (zs : List ℤ) (z : ℤ) →
        greatest zs ≡ Some z ↔ (Contains zs z × ((y : ℤ) → Contains zs y → y ≤ℤ z)) }
    ensures greatest_of_some { (z : ℤ) (zs : List ℤ) → IsSome (greatest (z ∷ zs)) }
{}

/// The number made of given bits has these bits and fits 64 bits. Two numbers of 64 bits with the same bits are equal.
pub fn bits_of_numbers()
    ensures bits { (is_set : ℕ → Bool) (i : ℕ) → i < 64 →
        has_bit i (number_of_bits is_set) ≡ is_set i }
    ensures fit { (is_set : ℕ → Bool) → FitsSigned w64 (number_of_bits is_set) }
    ensures determined { (x y : ℤ) → FitsSigned w64 x → FitsSigned w64 y →
        ((i : ℕ) → i < 64 → has_bit i x ≡ has_bit i y) → x ≡ y }
{}

/// A number is made of its own bits. The group of a key in two lists of rows appended is its groups in both, appended.
/// The partial result of two lists appended is what the partial results of both combine to, of arguments as of rows.
pub fn combining()
    ensures one_number { (z : ℤ) → FitsSigned w64 z → (bits_of_all (z ∷ []) ≡ z)
        × (bits_of_some (z ∷ []) ≡ z) × (bits_of_odd (z ∷ []) ≡ z) }
    ensures groups { (query : Query) (xs ys : List Row) (key : Row) →
        group query (xs ++ ys) key ≡ group query xs key ++ group query ys key }
    ensures arguments { (function : Function) (xs ys : List Datum) →
        partial function (xs ++ ys) ≡ combine function (partial function xs) (partial function ys) }
    ensures rows { (aggregate : Aggregate) (xs ys : List Row) →
        partial aggregate.function (arguments aggregate (xs ++ ys))
        ≡ combine aggregate.function (partial aggregate.function (arguments aggregate xs)) (partial
        aggregate.function (arguments aggregate ys)) }
{}

/// `count(*)` is how many rows there are, and `count(x)` how many arguments are not null.
pub fn counting()
    ensures rows { (values : List Datum) → partial Count_rows values ≡ Counted (length values) }
    ensures values { (values : List Datum) →
        partial Count values ≡ Counted (length (non_null values)) }
{}

/// A function's partial result after one more argument, and an aggregate's after one more row. Where FILTER keeps the
/// row, the transition takes its argument; else nothing changes. Every function but `count(*)` ignores nulls.
pub fn transitions()
    ensures argument { (function : Function) (xs : List Datum) (kind : Kind) (value : Datum) →
        HasKind kind value → partial function (xs ++ value ∷ [])
        ≡ transition function (partial function xs) value }
    ensures null { (function : Function) (p : Partial) → function ≢ Count_rows →
        transition function p Null ≡ p }
    ensures row { (aggregate : Aggregate) (kinds : List Kind) (rows : List Row) (row : Row) →
        HasKinds kinds row → partial aggregate.function (arguments aggregate (rows ++ row ∷ []))
        ≡ (if is_met (column_of row) aggregate.filter
        then transition aggregate.function (partial aggregate.function (arguments aggregate rows))
        (argument aggregate.column row)
        else partial aggregate.function (arguments aggregate rows)) }
{}

/// The groups of rows as a map from keys to partial results. Two lists of rows appended have the groups of both,
/// combined key by key. A row that WHERE rejects changes nothing; one that it keeps brings its key.
pub fn groups_as_map()
    ensures keys { (query : Query) (rows : List Row) → keys_of (part query rows) ≡ keys query rows }
    ensures found { (query : Query) (rows : List Row) (key : Row) →
        partials_at key (part query rows)
        ≡ (if is_among row_cmp key (keys query rows)
        then Some (partials query (group query rows key)) else None) }
    ensures appended { (query : Query) (xs ys : List Row) →
        part query (xs ++ ys) ≡ combine_parts query (part query xs) (part query ys) }
    ensures not_selected { (query : Query) (rows : List Row) (row : Row) →
        is_met (column_of row) query.condition ≡ false →
        part query (rows ++ row ∷ []) ≡ part query rows }
    ensures one_more_key { (query : Query) (rows : List Row) (row : Row) →
        is_met (column_of row) query.condition ≡ true →
        keys query (rows ++ row ∷ []) ≡ put row_cmp (key_of query row) (keys query rows) }
{}

/// The groups after one more row follow from those before it. A row that WHERE keeps changes the partial results of its key alone. A new
/// key starts from the partial results of no rows.
pub fn groups_of_rows()
    ensures one_more_row { (query : Query) (kinds : List Kind) (rows : List Row) (row : Row) →
        HasKinds kinds row → is_met (column_of row) query.condition ≡ true →
        part query (rows ++ row ∷ []) ≡ with_row query (part query rows) row }
{}

/// Rows in the order of ORDER BY are the same rows, sorted by its terms; those that the terms do not tell apart keep their order, which is
/// key order. Exactly one list is so. Without terms the order stays.
pub fn ordering_rows()
    ensures same_rows { (terms : List Term) (rows : List (List Outcome)) → IsPermutation rows (ordered terms rows) }
    ensures in_order { (terms : List Term) (rows : List (List Outcome)) →
        IsSortedBy (comes_before terms) (ordered terms rows) }
    ensures ties { (terms : List Term) (rows : List (List Outcome)) →
        IsStableBy (comes_before terms) rows (ordered terms rows) }
    ensures one { (terms : List Term) (rows found : List (List Outcome)) →
        IsSortedBy (comes_before terms) found → IsStableBy (comes_before terms) rows found →
        found ≡ ordered terms rows }
    ensures unordered { (rows : List (List Outcome)) → ordered [] rows ≡ rows }
{}

/// Groups over one batch, and over batches of which the second comes last.
pub fn answers()
    ensures first_run { answer sums three_rows (knowing ((0, 1) ∷ []))
        ≡ triple bergen 1 (pos 7) ∷ triple oslo 2 (pos 3) ∷ [] }
    ensures with_gap { answer sums three_batches (knowing ((0, 1) ∷ (0, 3) ∷ []))
        ≡ triple oslo 1 (pos 5) ∷ [] }
    ensures gap_closed { answer sums three_batches (knowing ((0, 3) ∷ (0, 2) ∷ (0, 1) ∷ []))
        ≡ triple bergen 1 (pos 7) ∷ triple oslo 2 (pos 105) ∷ [] }
{}

/// What is known with a gap, and what is known after the gap is closed from the other side.
pub fn known_numbers()
    ensures gap { prefix (knowing ((0, 1) ∷ (0, 3) ∷ [])) 0 ≡ 1 }
    ensures after_gap { early (knowing ((0, 1) ∷ (0, 3) ∷ [])) 0 ≡ 3 ∷ [] }
    ensures united { prefix (union one_to_five six_and_eight) 0 ≡ 6 }
    ensures still_early { early (union one_to_five six_and_eight) 0 ≡ 8 ∷ [] }
    ensures other_origins { origins (knowing ((7, 1) ∷ (2, 5) ∷ (7, 2) ∷ [])) ≡ 2 ∷ 7 ∷ [] }
{}

/// Answers over no rows and over given ones. Among these are sums of more than 64 bits, nulls, conditions that are
/// unknown, bits and booleans. Rows are also put in the order of a sum that is null in one of them.
pub fn results()
    ensures of_nothing { answer_over grand_total [] ≡ (number 0 ∷ Plain Null ∷ []) ∷ [] }
    ensures none_of_nothing { answer_over any_rows [] ≡ [] }
    ensures wide_sums { answer_over sums extremes
        ≡ triple (Text (codes "x")) 2 (pos 18446744073709551614) ∷ triple (Text (codes "y")) 2
        (negsuc 18446744073709551615) ∷ [] }
    ensures nulls { answer_over of_nulls nulls_and_numbers
        ≡ (Plain a ∷ number 2 ∷ number 2 ∷ Numeric (pos 8) ∷ number 3 ∷ number 6 ∷ []) ∷ (Plain Null
        ∷ number 2 ∷ number 0 ∷ Plain Null ∷ Plain Null ∷ Plain Null ∷ []) ∷ [] }
    ensures filtered { answer_over big_ones last_unknown ≡ (number 3 ∷ number 1 ∷ []) ∷ [] }
    ensures unknown { answer_over not_itself last_unknown ≡ (number 1 ∷ []) ∷ [] }
    ensures bits { answer_over bits_and_booleans twelve_and_ten
        ≡ (Plain (Boolean false) ∷ Plain (Boolean true) ∷ Plain (Boolean false) ∷ number 8 ∷ number
        14 ∷ number 12 ∷ []) ∷ [] }
    ensures descending { answer_over by_sum one_absent ≡ absent (codes "b") ∷ summed (codes "c") (pos 5)
        ∷ summed (codes "a") (pos 1) ∷ summed (codes "d") (pos 1) ∷ [] }
    ensures nulls_last { answer_over by_sum_nulls_last one_absent ≡ summed (codes "c") (pos 5)
        ∷ summed (codes "a") (pos 1) ∷ summed (codes "d") (pos 1) ∷ absent (codes "b") ∷ [] }
{}
