//! The laws of the fields: what is printed is read back, and nothing else is read as it. No
//! function here does anything.

ghost use Rattle.std.specs.Prelude.{◌≡◌, ℕ, ◌^◌, ◌<◌, ◌≤◌, List, Option, Ok, ℤ, pos, neg_ℤ, ◌≤ℤ◌};
ghost use Rattle.std.specs.Prelude.{◌<ℤ◌, IfSome, [], ◌∷◌, ◌++◌, ◌+◌};
ghost use Rattle.std.specs.Fmt.{decimal, signed_decimal};
ghost use Rattle.text_fields.specs.Reading.{decimal_field, signed_field, hex_field, optional_field};
ghost use Rattle.text_fields.specs.Spelling.{hex, optional};
ghost use Rattle.text_fields.specs.Splitting.{field, field_count, rest, Lacks};

/// A decimal number is read back where it is at most `max`, and nothing else is read as it.
pub fn decimal_law()
    ensures back { (max n : ℕ) → n ≤ max → max < 2 ^ 64 → decimal_field max (decimal n) ≡ Ok n }
    ensures only { (max n : ℕ) (text : List ℕ) → max < 2 ^ 64 → decimal_field max text ≡ Ok n
        → (n ≤ max) × (text ≡ decimal n) }
{}

/// A signed decimal number is read back from `-bound` to `bound - 1`, and nothing else is read as
/// it.
pub fn signed_decimal_law()
    ensures back { (bound : ℕ) (z : ℤ) → bound < 2 ^ 64 → neg_ℤ (pos bound) ≤ℤ z → z <ℤ pos bound
        → signed_field bound (signed_decimal z) ≡ Ok z }
    ensures only { (bound : ℕ) (z : ℤ) (text : List ℕ) → 1 ≤ bound → bound < 2 ^ 64
        → signed_field bound text ≡ Ok z
        → (neg_ℤ (pos bound) ≤ℤ z) × (z <ℤ pos bound) × (text ≡ signed_decimal z) }
{}

/// A hexadecimal number is read back where it has no more than `count` digits, and nothing else is
/// read as it.
pub fn hex_law()
    ensures back { (count n : ℕ) → n < 16 ^ count → hex_field count (hex count n) ≡ Ok n }
    ensures only { (count n : ℕ) (text : List ℕ) → hex_field count text ≡ Ok n
        → (n < 16 ^ count) × (text ≡ hex count n) }
{}

/// An optional decimal number is read back, and nothing else is read as it.
pub fn optional_decimal_law()
    ensures back { (max : ℕ) (o : Option ℕ) → max < 2 ^ 64 → IfSome o (λ n. n ≤ max)
        → optional_field (decimal_field max) (optional decimal o) ≡ Ok o }
    ensures only { (max : ℕ) (o : Option ℕ) (text : List ℕ) → max < 2 ^ 64
        → optional_field (decimal_field max) text ≡ Ok o
        → IfSome o (λ n. n ≤ max) × (text ≡ optional decimal o) }
{}

/// An optional hexadecimal number is read back, and nothing else is read as it.
pub fn optional_hex_law()
    ensures back { (count : ℕ) (o : Option ℕ) → IfSome o (λ n. n < 16 ^ count)
        → optional_field (hex_field count) (optional (hex count) o) ≡ Ok o }
    ensures only { (count : ℕ) (o : Option ℕ) (text : List ℕ)
        → optional_field (hex_field count) text ≡ Ok o
        → IfSome o (λ n. n < 16 ^ count) × (text ≡ optional (hex count) o) }
{}

/// A field that lacks the separator is cut off again, before others and alone.
pub fn split_law()
    ensures first { (separator : ℕ) (first others : List ℕ) → Lacks separator first
        → field separator (first ++ separator ∷ others) ≡ first }
    ensures others { (separator : ℕ) (first others : List ℕ) → Lacks separator first
        → rest separator (first ++ separator ∷ others) ≡ others }
    ensures count { (separator : ℕ) (first others : List ℕ) → Lacks separator first
        → field_count separator (first ++ separator ∷ others) ≡ field_count separator others + 1 }
    ensures alone { (separator : ℕ) (first : List ℕ) → Lacks separator first
        → (field separator first ≡ first) × (rest separator first ≡ [])
        × (field_count separator first ≡ 1) }
{}

/// The parts of a text make it up again, and the first of them lacks the separator.
pub fn join_law()
    ensures lacks { (separator : ℕ) (text : List ℕ) → Lacks separator (field separator text) }
    ensures alone { (separator : ℕ) (text : List ℕ) → field_count separator text ≡ 1
        → text ≡ field separator text }
    ensures cut { (separator : ℕ) (text : List ℕ) → 2 ≤ field_count separator text
        → text ≡ field separator text ++ separator ∷ rest separator text }
    ensures count { (separator : ℕ) (text : List ℕ) → 2 ≤ field_count separator text
        → field_count separator text ≡ field_count separator (rest separator text) + 1 }
{}
