// What holds of all hellos.
ghost use Rattle.std.specs.Prelude.{◌≡◌, ◌≢◌, ◌≤◌, ◌<◌, ◌^◌, ◌↔◌, IsTrue, IsOk, ℕ, Bool, false, true, List, [], ◌∷◌, ◌++◌, length, Contains, codes, Some, None, Ok, Err};
ghost use Rattle.bencode_values.specs.Grammar.{spelled};
ghost use Rattle.bencode_values.specs.Lookup.{last_value};
ghost use Rattle.bencode_values.specs.declared.value.Pair.{Pair};
ghost use Rattle.bencode_values.specs.declared.value.Value.{Value};
ghost use Rattle.bencode_values.specs.declared.value.Value.TheVariants as V;
ghost use Rattle.packet_frames.specs.Written.{MayBeWritten};
ghost use Rattle.hello_caps.specs.declared.caps.Caps.{Caps};
ghost use Rattle.hello_caps.specs.declared.caps.HelloFault.{HelloFault};
ghost use Rattle.hello_caps.specs.declared.caps.HelloFault.TheVariants as F;
ghost use Rattle.hello_caps.specs.Capabilities.{caps_of, hello_of};
ghost use Rattle.hello_caps.specs.Replies.{entry, goodbye_value, server_hello_value};
ghost use Rattle.hello_caps.specs.Table.{HasNoRgb, AllowsLossy, HasUuid, HasLongUuid};

/// A value is a hello exactly where it is a list of the byte string `hello`, a dictionary, and any further items; the
/// dictionary alone then decides.
pub fn a_hello_by_form()
    ensures hello { (pairs : List Pair) (further : List Value) → hello_of (V.List (V.Bytes (codes "hello") ∷ V.Dict pairs ∷ further)) ≡ caps_of pairs }
    ensures only { (pairs : List Pair) → caps_of pairs ≢ Err F.NotHello }
    ensures other { (v : Value) → ((pairs : List Pair) (further : List Value) → v ≢ V.List (V.Bytes (codes "hello") ∷ V.Dict pairs ∷ further)) → hello_of v ≡ Err F.NotHello }
{}

/// The faults and the capabilities, each by what stands under its key.
pub fn capabilities_by_key()
    ensures no_encoding { (pairs : List Pair) → (caps_of pairs ≡ Err F.NoEncoding) ↔ HasNoRgb pairs }
    ensures long_uuid { (pairs : List Pair) (size : ℕ) → (caps_of pairs ≡ Err (F.Uuid size)) ↔ ((¬ HasNoRgb pairs) × HasLongUuid pairs size) }
    ensures accepted { (pairs : List Pair) → IsOk (caps_of pairs) ↔ ((¬ HasNoRgb pairs) × ((size : ℕ) → ¬ HasLongUuid pairs size)) }
    ensures lossy { (pairs : List Pair) (caps : Caps) → caps_of pairs ≡ Ok caps → IsTrue caps.lossy ↔ AllowsLossy pairs }
    ensures uuid { (pairs : List Pair) (caps : Caps) (text : List ℕ) → caps_of pairs ≡ Ok caps → HasUuid pairs text → caps.uuid ≡ text }
    ensures anonymous { (pairs : List Pair) (caps : Caps) → caps_of pairs ≡ Ok caps → ((text : List ℕ) → ¬ HasUuid pairs text) → caps.uuid ≡ [] }
    ensures short { (pairs : List Pair) (caps : Caps) → caps_of pairs ≡ Ok caps → length caps.uuid ≤ 64 }
{}

/// Of the pairs with one key the last counts: what stands under a key is the value of a pair that no pair with the key
/// comes behind, and nothing stands there exactly where no pair has the key.
pub fn the_last_pair_counts()
    ensures there { (key : List ℕ) (before after : List Pair) (v : Value) → last_value key after ≡ None → last_value key (before ++ entry key v ∷ after) ≡ Some v }
    ensures nowhere { (key : List ℕ) (pairs : List Pair) → (last_value key pairs ≡ None) ↔ ((v : Value) → ¬ Contains pairs (entry key v)) }
{}

/// What the server says is spelled so, and may be written as packets.
pub fn the_server_spells()
    ensures exact { spelled (server_hello_value false) ≡ codes "l5:hellod7:bencodei1e9:encodingsl5:rgb32e3:lz4i0e7:rencodei0e7:version1:1ee" }
    ensures lossy { spelled (server_hello_value true) ≡ codes "l5:hellod7:bencodei1e9:encodingsl5:rgb325:rgb16e3:lz4i0e7:rencodei0e7:version1:1ee" }
    ensures sized { length (spelled (server_hello_value false)) ≡ 75 }
    ensures hello { (lossy : Bool) → MayBeWritten (server_hello_value lossy) None }
    ensures not_hello { spelled (goodbye_value F.NotHello) ≡ codes "l10:disconnect9:not helloe" }
    ensures no_encoding { spelled (goodbye_value F.NoEncoding) ≡ codes "l10:disconnect11:no encodinge" }
    ensures long_uuid { (size : ℕ) → spelled (goodbye_value (F.Uuid size)) ≡ codes "l10:disconnect13:uuid too longe" }
    ensures goodbye { (fault : HelloFault) → MayBeWritten (goodbye_value fault) None }
{}
