// What holds of what an exact peer says.
ghost use Rattle.std.specs.Prelude.{◌≡◌, ◌+◌, ◌<◌, ◌^◌, ℕ, List, ◌++◌, codes, length};
ghost use Rattle.link_bay.specs.ExactPeer.{Following, follow, main_packet, replies};

/// A peer may take its bytes in two parts: what follows goes on from what the first part left.
pub fn appending_follows_on()
    ensures { (so_far : Following) (bytes more : List ℕ) → follow so_far (bytes ++ more) ≡ follow (follow so_far bytes) more }
{}

/// A window's announcement is answered by the map with the same numbers, and by nothing more. The example announces
/// window 1 at 0 0 of 2 by 2 pixels.
pub fn an_announcement_is_answered_by_a_map()
    ensures all { (numbers : List ℕ) → length numbers + 17 < 2 ^ 32
        → replies (main_packet (codes "l10:new-window" ++ (numbers ++ codes "dee"))) ≡ main_packet ((codes "l10:map-window" ++ numbers) ++ codes "e") }
    ensures example { replies (main_packet (codes "l10:new-windowi1ei0ei0ei2ei2edee")) ≡ main_packet (codes "l10:map-windowi1ei0ei0ei2ei2ee") }
{}
