// What the definitions come to, as facts that a proof gets by a call: each call does nothing.
ghost use Rattle.std.specs.Prelude.{◌≡◌, true, List, ℕ};
ghost use Rattle.window_model.specs.Desktop.{Window, IsDesktop};
ghost use Rattle.client_connection.specs.Clients.{ClientSeen};
ghost use Rattle.client_connection.specs.Laws.{RectangleMarked, WholeMarked, TakenGone};
ghost use Rattle.client_connection.specs.Changes.{
  PaintKeeps,
  HearingKeeps,
  CaptureKeeps,
  WriteKeeps,
  FillOwes,
  OpenOwes,
  AttachOwes,
  MapsOwe,
  CaptureOwes,
  WriteOwes,
  FreshOwes,
  PartsOwe,
};
ghost use Rattle.client_connection.specs.Knowing.{
  FreshKnows,
  PaintKnows,
  HearingKnows,
  CaptureKnows,
  WriteKnows,
  AttachedGaveHello,
  OthersGaveNone,
  UnbuiltIsGiven,
  MappedIsMarked,
};
ghost use Rattle.client_connection.specs.Shown.{OwesWhatDiffers, WillShowTheDesktop, WindowsAreSteady};
ghost use Rattle.client_connection.specs.Mapped.{BuiltSaysMapsAlone};
ghost use Rattle.client_connection.specs.Told.{IsTold};

/// After a rectangle was added a point is in the set where it was, or where it lies in the rectangle and
/// in the window.
pub fn rectangle_marked()
    ensures { RectangleMarked }
{}

/// Each point of the window is in the whole set, and none in the empty one.
pub fn whole_marked()
    ensures { WholeMarked }
{}

/// Bytes of the first packet that were taken are gone: what is left to write is what was, without them.
pub fn taken_gone()
    ensures { TakenGone }
{}

/// What every session keeps of a client whose hello was accepted: each pixel in which the client's picture,
/// read from the bytes sent to it, differs from the desktop is owed.
pub fn each_difference_is_owed()
    ensures { (desk : List Window) (c : ClientSeen) (sent : List ℕ) → IsDesktop desk → IsTold desk c sent → c.greeted ≡ true → OwesWhatDiffers desk c sent }
{}

/// Once the bytes that wait are sent the client shows the desktop's windows, in its order, with its places and sizes.
pub fn what_waits_lays_out_the_desktop()
    ensures { (desk : List Window) (c : ClientSeen) (sent : List ℕ) → IsTold desk c sent → c.greeted ≡ true → WillShowTheDesktop desk c sent }
{}

/// Of each window: the newest waiting draws that cover a point that is not pending are current, and nothing is
/// owed only in front of the window's announcement.
pub fn waiting_draws_are_current()
    ensures { (desk : List Window) (c : ClientSeen) (sent : List ℕ) → (told : IsTold desk c sent) → c.greeted ≡ true → WindowsAreSteady desk c sent told }
{}

/// Each step of a client keeps that each differing pixel is owed: a paint line, what a client says, a capture
/// and a write.
pub fn each_step_keeps_what_is_told()
    ensures paint { PaintKeeps }
    ensures hearing { HearingKeeps }
    ensures capture { CaptureKeeps }
    ensures write { WriteKeeps }
{}

/// What is kept of the bytes that a client gave is so when it is accepted, and each step keeps it: a paint line,
/// what the client says, a capture and a write.
pub fn each_step_keeps_what_is_known()
    ensures fresh { FreshKnows }
    ensures paint { PaintKnows }
    ensures hearing { HearingKnows }
    ensures capture { CaptureKnows }
    ensures write { WriteKnows }
{}

/// What is kept of these bytes comes to this: a client whose hello was accepted gave it and nothing that is not
/// built, any other gave no whole hello, unbuilt bytes make all that was given unbuilt, and a window that the
/// client mapped after it was shown has a mapped source.
pub fn what_a_client_gave()
    ensures attached { AttachedGaveHello }
    ensures others { OthersGaveNone }
    ensures unbuilt { UnbuiltIsGiven }
    ensures mapped { MappedIsMarked }
{}

/// How each step changes what a client is owed. A fill adds its rectangle, a new window its whole, and an accepted
/// hello makes the whole of each window of the desktop owed; maps and captures change nothing; a packet that was
/// wholly written leaves a point of its relief owed exactly where something else owes it. Bytes that were read, or
/// written of a packet in part, change nothing.
pub fn each_step_changes_owed_so()
    ensures fill { FillOwes }
    ensures opening { OpenOwes }
    ensures attach { AttachOwes }
    ensures maps { MapsOwe }
    ensures capture { CaptureOwes }
    ensures write { WriteOwes }
    ensures fresh { FreshOwes }
    ensures parts { PartsOwe }
{}

/// What a client of the first path may say: bytes that are a front of an exact client's hello and a thousand maps
/// of the script's window have, read as a client's talk is read, no fault, and their messages are maps of that
/// window alone.
pub fn what_is_built_says_maps_alone()
    ensures { BuiltSaysMapsAlone }
{}
