// What holds of all spellings and of all answers.
ghost use Rattle.std.specs.Prelude.{◌≡◌, ◌≢◌, ◌↔◌, ℕ, ℤ, ◌+◌, ◌<◌, true, List, [], ◌∷◌, ◌++◌, map};
ghost use Rattle.std.specs.List.{concat, AllByRecursion};
ghost use Rattle.bencode_values.specs.declared.value.Key.{Key};
ghost use Rattle.bencode_values.specs.declared.value.Pair.{Pair};
ghost use Rattle.bencode_values.specs.declared.value.Value.{Value};
ghost use Rattle.bencode_values.specs.declared.value.Value.TheVariants as V;
ghost use Rattle.bencode_values.specs.declared.reading.Read.{Read};
ghost use Rattle.bencode_values.specs.declared.reading.Read.TheVariants as R;
ghost use Rattle.bencode_values.specs.Grammar.{spelled, spelled_int, spelled_bytes, spelled_key, spelled_pair, is_in_range, is_string, key_fits, Fits, PairFits, IsWithinLimits};
ghost use Rattle.bencode_values.specs.Reading.{Reads};

/// No spelling is a prefix of another: where one value's spelling begins another's, they are one value, and
/// nothing is left.
pub fn no_spelling_begins_another()
    ensures { (v w : Value) (rest : List ℕ) → IsWithinLimits v → IsWithinLimits w → spelled w ≡ spelled v ++ rest → (v ≡ w) × (rest ≡ []) }
{}

/// Bytes have one answer.
pub fn one_answer()
    ensures { (bytes : List ℕ) (a b : Read) → AllByRecursion (λ byte. byte < 256) bytes → Reads bytes a → Reads bytes b → a ≢ R.NoMemory → b ≢ R.NoMemory → a ≡ b }
{}

/// The spelling of each form, by those of its parts.
pub fn spelling_by_form()
    ensures int { (n : ℤ) → spelled (V.Int n) ≡ spelled_int n }
    ensures bytes { (text : List ℕ) → spelled (V.Bytes text) ≡ spelled_bytes text }
    ensures list { (vs : List Value) → spelled (V.List vs) ≡ 108 ∷ (concat (map spelled vs) ++ 101 ∷ []) }
    ensures dict { (ps : List Pair) → spelled (V.Dict ps) ≡ 100 ∷ (concat (map spelled_pair ps) ++ 101 ∷ []) }
    ensures pair { (k : Key) (v : Value) → spelled_pair (record { key = k; value = v }) ≡ spelled_key k ++ spelled v }
{}

/// What is within the limits, by its parts.
pub fn limits_by_form()
    ensures int { (room : ℕ) (n : ℤ) → Fits room (V.Int n) ↔ (is_in_range n ≡ true) }
    ensures bytes { (room : ℕ) (text : List ℕ) → Fits room (V.Bytes text) ↔ (is_string text ≡ true) }
    ensures list { (room : ℕ) (vs : List Value) → Fits (room + 1) (V.List vs) ↔ AllByRecursion (Fits room) vs }
    ensures dict { (room : ℕ) (ps : List Pair) → Fits (room + 1) (V.Dict ps) ↔ AllByRecursion (PairFits room) ps }
    ensures pair { (room : ℕ) (k : Key) (v : Value) → PairFits room (record { key = k; value = v }) ↔ ((key_fits k ≡ true) × Fits room v) }
{}
