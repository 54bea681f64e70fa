// What holds of all messages and pictures.
ghost use Rattle.std.specs.Prelude.{◌≡◌, ℕ, None, []};
ghost use Rattle.packet_kinds.specs.Picture.{picture};
ghost use Rattle.packet_kinds.specs.Written.{Show};
ghost use Rattle.packet_kinds.specs.Laws.{MessageFollows, PartShowsNothing, MessageHasBytes, OneWindowChanges, NumbersStayDistinct, ReadHasFields, ReadIsInRange, EffectKeepsDesktop, PictureIsDesktop, DrawShows, DrawHoldsPixels, NewWindowShows, ResizeShows, PictureStops, PictureFolds};

/// No bytes show no window.
pub fn nothing_is_shown_at_first()
    ensures show { (limit : ℕ) → Show limit [] [] }
    ensures picture { (limit : ℕ) → picture limit [] ≡ record { windows = []; fault = None } }
{}

/// Whole packets followed by a message show what they showed, changed by the message.
pub fn a_message_follows()
    ensures { MessageFollows }
{}

/// A part of a message, short of all, changes nothing.
pub fn a_part_shows_nothing()
    ensures { PartShowsNothing }
{}

/// No message is empty: each has a header of 8 bytes and a spelling.
pub fn a_message_has_bytes()
    ensures { MessageHasBytes }
{}

/// What a client shows of one window depends on the packets on that window alone.
pub fn one_window_changes()
    ensures { OneWindowChanges }
{}

/// No packet makes a second window of one number.
pub fn numbers_stay_distinct()
    ensures { NumbersStayDistinct }
{}

/// The numbers, places and sides of a packet that is read are such as a window or a draw may have; so a packet that
/// was read may be written again, where it has a name and its further integers are of 64 bits.
pub fn a_read_packet_has_fields()
    ensures range { ReadIsInRange }
    ensures fields { ReadHasFields }
{}

/// Where its numbers are such, and a draw's bytes are bytes, a packet keeps a desktop.
pub fn an_effect_keeps_a_desktop()
    ensures { EffectKeepsDesktop }
{}

/// The picture of any bytes is a desktop: no two windows have one number, and each has as many pixels as its size
/// says, in the ranges of a window.
pub fn a_picture_is_a_desktop()
    ensures { PictureIsDesktop }
{}

/// A point of a drawn window shows the colour that was decoded for it in the draw's rectangle, and what it
/// showed elsewhere.
pub fn a_draw_shows()
    ensures { DrawShows }
{}

/// A draw's bytes are taken for its pixels exactly where decoding takes them.
pub fn a_draw_holds_its_pixels()
    ensures { DrawHoldsPixels }
{}

/// Each point of a new window shows 0.
pub fn a_new_window_shows()
    ensures { NewWindowShows }
{}

/// A point of a resized window shows what it showed where it was in the window before, and 0 elsewhere.
pub fn a_resize_shows()
    ensures { ResizeShows }
{}

/// Behind its first fault a picture stays.
pub fn a_picture_stops()
    ensures { PictureStops }
{}

/// A picture has no fault exactly where the bytes have none and each packet is read and has an effect. Then it
/// is what the effects lead to, in order, from no window.
pub fn a_picture_folds()
    ensures { PictureFolds }
{}
