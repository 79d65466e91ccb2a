//! What a packet asks, as `specs/Packet.antt` has it.
ghost use Rattle.std.specs.Prelude.{◌≡◌, ◌≤◌, length};
ghost use Rattle.rv_gdb.specs.Packet as spec;
ghost use Rattle.rv_remote.specs.declared.framing.TheConstants.{MOST_BYTES};

use crate::action::{Actions, are_actions};
use crate::decoded::decode;
use crate::fields::{Id, Range, behind, is, read_hexadecimal, read_id, read_range};
use crate::monitor::{Order, read_order};
use crate::point::{Kind, Point};
use rv_text::pieces::Pieces;

/// The most bytes of memory that are shown at once.
pub const MOST_SHOWN: u32 = 256;

/// How the run is to go on, of one thread or of all.
#[derive(Clone, Copy)]
pub enum Move {
    Step,
    Continue,
    StepBack,
    ContinueBack,
}

/// What a packet asks.
#[derive(Drop)]
pub enum Request<'a> {
    /// `qSupported`: what is understood here.
    Supported,
    /// `QStartNoAckMode`: no more acknowledgments.
    StartNoAck,
    /// `?`: why the run stands.
    Why,
    /// `qC`: the focus.
    Current,
    /// `qAttached`: whether the run was there before the talk.
    Attached,
    /// `qfThreadInfo`: all threads.
    FirstThreads,
    /// `qsThreadInfo`: more of them.
    MoreThreads,
    /// `vCont?`: the names of the actions.
    ActionNames,
    /// `TID`: whether there is the thread.
    IsAlive(Id),
    /// `HgID`: the thread whose state is shown.
    Show(Id),
    /// `HcID`: the thread that goes on.
    Choose(Id),
    /// `qThreadExtraInfo,ID`: how the thread stands.
    ExtraInfo(Id),
    /// `g`: all registers.
    Registers,
    /// `pR`: one register.
    Register(u32),
    /// `mADDR,LEN`: 1 to `MOST_SHOWN` bytes.
    Memory(Range),
    /// `ZK,ADDR,LEN`: a point more.
    SetPoint(Point),
    /// `zK,ADDR,LEN`: a point less.
    ClearPoint(Point),
    /// `vCont;..`: each thread does what the first action that names it says.
    Act(Actions<'a>),
    /// `s`, `c`, `bs` and `bc`.
    Go(Move),
    /// `qXfer:features:read:target.xml:AT,LEN`: a part of the text.
    Features(Range),
    /// The same of another text.
    OtherAnnex,
    /// `qRcmd,HEX`: a user's command, or one that there is not.
    Monitor(Option<Order>),
    /// `D`: the talk ends.
    Detach,
    /// `k`: the talk ends without an answer.
    Kill,
    /// `G`, `P`, `M` and `X`: the state is to be another.
    Write,
    /// Any other.
    Unknown,
}

/// What the data of a packet asks. None where it is malformed.
#[tactic(auto, unfolding(crate::specs::Packet::request_of))]
pub fn read_request(text: &[u8]) -> Option<Request<'_>>
    requires { length text.now ≤ MOST_BYTES }
    ensures { result ≡ spec.request_of text.now }
{
    if let Some(question) = read_question(text) {
        return Some(question);
    }
    if let Some(request) = read_letter(text) {
        return Some(request);
    }
    match read_by_word(text) {
        Some(request) => request,
        None => Some(Request::Unknown),
    }
}

/// A packet that is known by the word that it begins with: None where it is by another, and `Some(None)` where the
/// rest is malformed.
fn read_by_word(text: &[u8]) -> Option<Option<Request<'_>>>
    requires { length text.now ≤ MOST_BYTES }
    ensures { result ≡ spec.asked_by_word text.now }
{
    if let Some(request) = read_thread_row(text) {
        return Some(request);
    }
    if let Some(request) = read_state_row(text) {
        return Some(request);
    }
    if let Some(request) = read_long_row(text) {
        return Some(request);
    }
    if let Some(request) = read_point_row(text) {
        return Some(request);
    }
    read_write_row(text)
}

// ---- packets known by their whole data

fn read_question(text: &[u8]) -> Option<Request<'_>>
    ensures { result ≡ spec.question_in text.now }
{
    if is(text, b"qSupported") {
        Some(Request::Supported)
    } else if is(text, b"QStartNoAckMode") {
        Some(Request::StartNoAck)
    } else if is(text, b"qC") {
        Some(Request::Current)
    } else if is(text, b"qAttached") {
        Some(Request::Attached)
    } else if is(text, b"qfThreadInfo") {
        Some(Request::FirstThreads)
    } else if is(text, b"qsThreadInfo") {
        Some(Request::MoreThreads)
    } else if is(text, b"vCont?") {
        Some(Request::ActionNames)
    } else {
        None
    }
}

fn read_letter(text: &[u8]) -> Option<Request<'_>>
    ensures { result ≡ spec.letter_in text.now }
{
    match text {
        b"?" => Some(Request::Why),
        b"g" => Some(Request::Registers),
        b"s" => Some(Request::Go(Move::Step)),
        b"c" => Some(Request::Go(Move::Continue)),
        b"bs" => Some(Request::Go(Move::StepBack)),
        b"bc" => Some(Request::Go(Move::ContinueBack)),
        b"D" => Some(Request::Detach),
        b"k" => Some(Request::Kill),
        _ => None,
    }
}

// ---- packets known by a word

fn read_alive(text: &[u8]) -> Option<Request<'_>>
    ensures { result ≡ spec.alive_in text.now }
{
    Some(Request::IsAlive(read_id(text)?))
}

fn read_show(text: &[u8]) -> Option<Request<'_>>
    ensures { result ≡ spec.show_in text.now }
{
    Some(Request::Show(read_id(text)?))
}

fn read_choose(text: &[u8]) -> Option<Request<'_>>
    ensures { result ≡ spec.choose_in text.now }
{
    Some(Request::Choose(read_id(text)?))
}

fn read_extra(text: &[u8]) -> Option<Request<'_>>
    ensures { result ≡ spec.extra_in text.now }
{
    Some(Request::ExtraInfo(read_id(text)?))
}

fn read_thread_row(text: &[u8]) -> Option<Option<Request<'_>>>
    ensures { result ≡ spec.thread_row text.now }
{
    if let Some(id) = behind(b"T", text) {
        return Some(read_alive(id));
    }
    if let Some(id) = behind(b"Hg", text) {
        return Some(read_show(id));
    }
    if let Some(id) = behind(b"Hc", text) {
        return Some(read_choose(id));
    }
    let id = behind(b"qThreadExtraInfo,", text)?;
    Some(read_extra(id))
}

fn read_register(text: &[u8]) -> Option<Request<'_>>
    ensures { result ≡ spec.register_in text.now }
{
    Some(Request::Register(read_hexadecimal(text)?))
}

fn read_state_row(text: &[u8]) -> Option<Option<Request<'_>>>
    ensures { result ≡ spec.state_row text.now }
{
    if let Some(register) = behind(b"p", text) {
        return Some(read_register(register));
    }
    if let Some(range) = behind(b"m", text) {
        return Some(read_memory(range));
    }
    if behind(b"qSupported:", text).is_some() {
        return Some(Some(Request::Supported));
    }
    let part = behind(b"qXfer:features:read:", text)?;
    Some(read_features(part))
}

fn read_memory(text: &[u8]) -> Option<Request<'_>>
    ensures { result ≡ spec.memory_in text.now }
{
    let range = read_range(text)?;
    if range.length == 0 || range.length > MOST_SHOWN {
        return None;
    }
    Some(Request::Memory(range))
}

/// A part of the text that the annex names.
fn part_of(annex: &[u8], range: Range) -> Request<'static>
    ensures { result ≡ spec.part_of annex.now range }
{
    if is(annex, b"target.xml") {
        Request::Features(range)
    } else {
        Request::OtherAnnex
    }
}

fn read_features(text: &[u8]) -> Option<Request<'_>>
    ensures { result ≡ spec.features_in text.now }
{
    let mut pieces = Pieces::of(text, b':');
    let annex = pieces.next_piece()?;
    let part = pieces.next_piece()?;
    if pieces.next_piece().is_some() {
        return None;
    }
    let range = read_range(part)?;
    Some(part_of(annex, range))
}

fn read_long_row(text: &[u8]) -> Option<Option<Request<'_>>>
    requires { length text.now ≤ MOST_BYTES }
    ensures { result ≡ spec.long_row text.now }
{
    if let Some(actions) = behind(b"vCont;", text) {
        return Some(read_actions(actions));
    }
    let digits = behind(b"qRcmd,", text)?;
    Some(read_monitor(digits))
}

fn read_actions(text: &[u8]) -> Option<Request<'_>>
    ensures { result ≡ spec.actions_asked text.now }
{
    if are_actions(text) {
        Some(Request::Act(Actions::of(text)))
    } else {
        None
    }
}

fn read_monitor(text: &[u8]) -> Option<Request<'_>>
    requires { length text.now ≤ MOST_BYTES }
    ensures { result ≡ spec.monitor_in text.now }
{
    let command = decode(text)?;
    Some(Request::Monitor(read_order(command.as_bytes())))
}

fn read_point_row(text: &[u8]) -> Option<Option<Request<'_>>>
    ensures { result ≡ spec.point_row text.now }
{
    match text {
        [letter, digit, rest @ ..] => read_point_of(*letter, read_kind(*digit)?, rest),
        _ => None,
    }
}

fn read_point_of(letter: u8, kind: Kind, text: &[u8]) -> Option<Option<Request<'_>>>
    ensures { result ≡ spec.point_of letter kind text.now }
{
    match letter {
        b'Z' => Some(read_set(kind, text)),
        b'z' => Some(read_clear(kind, text)),
        _ => None,
    }
}

fn read_set(kind: Kind, text: &[u8]) -> Option<Request<'_>>
    ensures { result ≡ spec.set_in kind text.now }
{
    Some(Request::SetPoint(read_point(kind, text)?))
}

fn read_clear(kind: Kind, text: &[u8]) -> Option<Request<'_>>
    ensures { result ≡ spec.clear_in kind text.now }
{
    Some(Request::ClearPoint(read_point(kind, text)?))
}

fn read_kind(digit: u8) -> Option<Kind>
    ensures { result ≡ spec.kind_of digit }
{
    match digit {
        b'0' => Some(Kind::Software),
        b'1' => Some(Kind::Hardware),
        b'2' => Some(Kind::Write),
        b'3' => Some(Kind::Read),
        b'4' => Some(Kind::Access),
        _ => None,
    }
}

fn read_point(kind: Kind, text: &[u8]) -> Option<Point>
    ensures { result ≡ spec.point_in kind text.now }
{
    match text {
        [b',', range @ ..] => Some(Point {
            kind,
            bytes: read_range(range)?,
        }),
        _ => None,
    }
}

fn read_write_row(text: &[u8]) -> Option<Option<Request<'_>>>
    ensures { result ≡ spec.write_row text.now }
{
    match text {
        [b'G' | b'P' | b'M' | b'X', ..] => Some(Some(Request::Write)),
        _ => None,
    }
}
