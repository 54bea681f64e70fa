// The top call.
ghost use Rattle.std.specs.Prelude.{◌≡◌, ◌≢◌, All, ◌≤◌, ◌⊎◌, ◌↔◌, IsTrue, true, [], codes, length, map, string_bytes};
ghost use Rattle.xp_base.specs.Counts.{Rose};
ghost use Rattle.xp_base.specs.Told.{HasNoneLeft, told_append};
ghost use Rattle.link_bay.specs.Provider.{IsFresh};
ghost use Rattle.xpra_server.specs.Statuses.{IsPlay, RanWell, Faults, IsScript, TellsScript, AreEnds, AllHaveCauses, HaveCausesFor, WritesPartOf, WritesPart};
ghost use Rattle.xpra_server.specs.Read.{ReadsPast};
ghost use Rattle.xpra_server.specs.Report.{report as report_text};
ghost use Rattle.xpra_server.specs.Texts.{fault_line};
ghost use Rattle.first_script.specs.Painting.{last_desk};
ghost use Rattle.first_script.specs.Validity.{paint_lines, peer_orders};
ghost use Rattle.xpra_server.specs.Texts.{usage_line};

use crate::input::{Input, read_all};
use crate::playing::{Played, Stop, play};
use crate::report::write_report;
use crate::texts::{fault_text, usage};
use first_script::{Script, ScriptRead, read_script};
use link_bay::Bay;
use session_core::End;
use std::alloc::Global;
use xp_base::{Put, Sink, Source};

/// How many bytes a script may have.
const LIMIT: usize = 65_536;

/// What a run leaves: its status, the end of each connection by its number, and the provider.
#[derive(Drop)]
pub struct Outcome<B: Drop> {
    pub status: u8,
    pub ends: Vec<End>,
    pub bay: B,
}

/// Plays the script that the input is, and writes the report of its last windows.
///
/// Status 0: the report was written, and each client that ended `Settled` shows exactly the script's last
/// windows. 1: the words are no form of this call; the usage line was written.
/// 2: the input is no script; its fault line was written. 3: the input failed. 4: the output failed.
/// 5: want of memory. 6: an accept failed.
pub fn top<S: Source, K: Sink, B: Bay + Drop>(
    words: &Vec<String>,
    input: &mut S,
    out: &mut K,
    bay: B,
) -> Outcome<B>
    requires fresh { IsFresh (B.provider bay) }
    ensures usage { result.status ≡ 1 → ¬ IsPlay (map string_bytes words.now.items) }
    ensures wrong { ¬ IsPlay (map string_bytes words.now.items) → (result.status ≡ 1) ⊎ (result.status ≡ 4) ⊎ (result.status ≡ 5) }
    ensures usage_text { result.status ≡ 1 → (K.sink out.new).taken ≡ told_append (K.sink out.old).taken usage_line }
    ensures refused { result.status ≡ 2 → Faults (S.source input.old).left (K.sink out.old).taken (K.sink out.new).taken }
    ensures ran { result.status ≡ 0 → RanWell B.tells (S.source input.old).left (K.sink out.old).taken (K.sink out.new).taken (B.provider bay).asked (B.provider result.bay).asked (B.connection result.bay) result.ends.items }
    ensures input { result.status ≡ 3 → Rose (S.source input.old).faults (S.source input.new).faults }
    ensures output { result.status ≡ 4 → Rose (K.sink out.old).faults (K.sink out.new).faults }
    ensures input_well { result.status ≢ 3 → (S.source input.new).faults ≡ (S.source input.old).faults }
    ensures output_well { result.status ≢ 4 → (K.sink out.new).faults ≡ (K.sink out.old).faults }
    ensures usage_part { ¬ IsPlay (map string_bytes words.now.items) → (result.status ≡ 4) ⊎ (result.status ≡ 5) → WritesPartOf usage_line (K.sink out.old).taken (K.sink out.new).taken }
    ensures part { IsPlay (map string_bytes words.now.items) → (result.status ≡ 4) ⊎ (result.status ≡ 5)
        → WritesPart (S.source input.old).left result.ends.items (K.sink out.old).taken (K.sink out.new).taken }
    ensures accept { result.status ≡ 6 → Rose (B.provider bay).faults (B.provider result.bay).faults }
    ensures accept_well { result.status ≢ 6 → (B.provider result.bay).faults ≡ (B.provider bay).faults }
    ensures statuses { result.status ≤ 6 }
    ensures read { result.status ≡ 0 → HasNoneLeft (S.source input.new).left }
    ensures judged { result.status ≡ 2 → HasNoneLeft (S.source input.new).left ⊎ ReadsPast 65536 (S.source input.old).left (S.source input.new).left }
    ensures valid { (result.status ≡ 0) ⊎ (result.status ≡ 6) → IsScript (S.source input.old).left }
    ensures unread { ¬ IsPlay (map string_bytes words.now.items) → S.source input.new ≡ S.source input.old }
    ensures unwritten { (result.status ≡ 3) ⊎ (result.status ≡ 6) → K.sink out.new ≡ K.sink out.old }
    ensures unused { ¬ IsPlay (map string_bytes words.now.items) → result.bay ≡ bay }
    ensures untouched { (result.status ≡ 2) ⊎ (result.status ≡ 3) → result.bay ≡ bay }
    ensures counted { length result.ends.items ≡ (B.provider result.bay).count }
    ensures ended { result.status ≡ 0 → AreEnds result.ends.items }
    ensures causes { HaveCausesFor B.tells (S.source input.old).left (B.connection result.bay) result.ends.items }
    ensures complete { IsPlay (map string_bytes words.now.items) → TellsScript (S.source input.old).left → ¬ Rose (S.source input.old).faults (S.source input.new).faults → ¬ Rose (K.sink out.old).faults (K.sink out.new).faults
        → ¬ Rose (B.provider bay).faults (B.provider result.bay).faults → (result.status ≡ 0) ⊎ (result.status ≡ 5) }
    ensures fed { result.status ≢ 5 → All (λ e. e ≢ End.Short) result.ends.items }
    ensures served { result.status ≡ 0 → B.tells ≡ true → (B.provider result.bay).room ≡ 0 }
    ensures quiet { result.status ≡ 0 → Rose (B.provider bay).lulls (B.provider result.bay).lulls }
{
    let alloc = *words.allocator();
    if !is_play(words) {
        return finished(written(out, usage(), 1), Vec::new(alloc), bay);
    }
    match read_all(alloc, input, LIMIT) {
        Input::Whole(text) => match read_script(alloc, &text) {
            ScriptRead::Valid(script) => play_script(alloc, &script, out, bay),
            ScriptRead::Fault(fault) => refuse(alloc, fault.line, out, bay),
            ScriptRead::NoMemory => finished(5, Vec::new(alloc), bay),
        },
        Input::Long => refuse(alloc, 0, out, bay),
        Input::Failed => finished(3, Vec::new(alloc), bay),
        Input::NoMemory => finished(5, Vec::new(alloc), bay),
    }
}

fn is_play(words: &Vec<String>) -> bool
    ensures { IsTrue result ↔ IsPlay (map string_bytes words.now.items) }
{
    match words.as_slice() {
        [word] => is_play_word(word.as_str()),
        _ => false,
    }
}

fn is_play_word(word: &str) -> bool
    ensures { IsTrue result ↔ (word.now ≡ codes "play") }
{
    word == "play"
}

/// Plays the script, and writes the report.
fn play_script<K: Sink, B: Bay + Drop>(
    alloc: Global,
    script: &Script,
    out: &mut K,
    bay: B,
) -> Outcome<B>
    requires fresh { IsFresh (B.provider bay) }
    ensures statuses { (result.status ≡ 0) ⊎ (result.status ≡ 4) ⊎ (result.status ≡ 5) ⊎ (result.status ≡ 6) }
    ensures report { result.status ≡ 0 → (K.sink out.new).taken ≡ told_append (K.sink out.old).taken (report_text (last_desk (paint_lines script.now)) result.ends.items) }
    ensures output { result.status ≡ 4 → Rose (K.sink out.old).faults (K.sink out.new).faults }
    ensures output_well { result.status ≢ 4 → (K.sink out.new).faults ≡ (K.sink out.old).faults }
    ensures part { (result.status ≡ 4) ⊎ (result.status ≡ 5)
        → WritesPartOf (report_text (last_desk (paint_lines script.now)) result.ends.items) (K.sink out.old).taken (K.sink out.new).taken }
    ensures accept { result.status ≡ 6 → Rose (B.provider bay).faults (B.provider result.bay).faults }
    ensures accept_well { result.status ≢ 6 → (B.provider result.bay).faults ≡ (B.provider bay).faults }
    ensures unwritten { result.status ≡ 6 → K.sink out.new ≡ K.sink out.old }
    ensures counted { length result.ends.items ≡ (B.provider result.bay).count }
    ensures ended { result.status ≡ 0 → AreEnds result.ends.items }
    ensures causes { AllHaveCauses B.tells (paint_lines script.now) (B.connection result.bay) result.ends.items }
    ensures fed { result.status ≢ 5 → All (λ e. e ≢ End.Short) result.ends.items }
    ensures asked { result.status ≡ 0 → (B.provider result.bay).asked ≡ told_append (B.provider bay).asked (peer_orders script.now) }
    ensures served { result.status ≡ 0 → B.tells ≡ true → (B.provider result.bay).room ≡ 0 }
    ensures quiet { result.status ≡ 0 → Rose (B.provider bay).lulls (B.provider result.bay).lulls }
{
    let Played { shown, ends, bay } = play(alloc, script, bay);
    let status = match shown {
        Ok(desk) => match write_report(alloc, &desk, &ends) {
            Ok(text) => written(out, text.as_slice(), 0),
            Err(_) => 5,
        },
        Err(Stop::NoMemory) => 5,
        Err(Stop::BayFault) => 6,
    };
    finished(status, ends, bay)
}

/// Writes the fault of the script at this line.
fn refuse<K: Sink, B: Bay + Drop>(alloc: Global, line: u32, out: &mut K, bay: B) -> Outcome<B>
    ensures statuses { (result.status ≡ 2) ⊎ (result.status ≡ 4) ⊎ (result.status ≡ 5) }
    ensures text { result.status ≡ 2 → (K.sink out.new).taken ≡ told_append (K.sink out.old).taken (fault_line line) }
    ensures output { result.status ≡ 4 → Rose (K.sink out.old).faults (K.sink out.new).faults }
    ensures output_well { result.status ≢ 4 → (K.sink out.new).faults ≡ (K.sink out.old).faults }
    ensures part { (result.status ≡ 4) ⊎ (result.status ≡ 5) → WritesPartOf (fault_line line) (K.sink out.old).taken (K.sink out.new).taken }
    ensures bay { result.bay ≡ bay }
    ensures ends { result.ends.items ≡ [] }
{
    let none = Vec::new(alloc);
    match fault_text(alloc, line) {
        Ok(text) => finished(written(out, text.as_slice(), 2), none, bay),
        Err(_) => finished(5, none, bay),
    }
}

/// The status where the text is taken, or that of a fault of the output.
fn written<K: Sink>(out: &mut K, text: &[u8], status: u8) -> u8
    requires { status ≤ 2 }
    ensures statuses { (result ≡ status) ⊎ (result ≡ 4) ⊎ (result ≡ 5) }
    ensures text { result ≡ status → (K.sink out.new).taken ≡ told_append (K.sink out.old).taken text.now }
    ensures output { result ≡ 4 → Rose (K.sink out.old).faults (K.sink out.new).faults }
    ensures output_well { result ≢ 4 → (K.sink out.new).faults ≡ (K.sink out.old).faults }
    ensures part { (result ≡ 4) ⊎ (result ≡ 5) → WritesPartOf text.now (K.sink out.old).taken (K.sink out.new).taken }
{
    match out.put(text) {
        Put::Done => status,
        Put::Failed => 4,
        Put::NoMemory => 5,
    }
}

fn finished<B: Bay + Drop>(status: u8, ends: Vec<End>, bay: B) -> Outcome<B>
    ensures status { result.status ≡ status }
    ensures ends { result.ends.items ≡ ends.items }
    ensures bay { result.bay ≡ bay }
{
    Outcome { status, ends, bay }
}
