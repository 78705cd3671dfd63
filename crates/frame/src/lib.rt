// Frames of typed packets (document 01, "Forms and frames", and document 02, Q-4): a thin layer
// over `frame_reader` and `frame_writer`, which read and write packets as ten bytes.
#![tactic(auto)]

ghost use Rattle.std.specs.Prelude.{◌≡◌, ◌%◌, length, drop};
ghost use Rattle.refusal.specs.Numbers.{value_by, refusal_at, refusal_number};
ghost use Rattle.little.specs.Little.{flag};
ghost use Rattle.frame_form.specs.Forms.{seg_of};
ghost use Rattle.frame_form.specs.Segments.{frame_length};
ghost use Rattle.frame_reader.specs.Reading.{fault_answer};
ghost use Rattle.frame_writer.specs.Routes.{route_length};
ghost use Rattle.frame.specs.Packets.{data_of, clear_request_of, clear_confirmation_of, call_request_of, call_accept_of, flow_control_of, interrupt_of, confirmation_of, reset_of, packet_of, packet_bytes, packet_at, as_data, sn_of};
ghost use Rattle.frame.specs.Writing.{written_bytes, length_of, frame_verdict, written_at, write_of, write_output};
ghost use Rattle.frame.specs.Routes.{route_said, write_route_of, write_route_output};
ghost use Rattle.frame.specs.Reading.{extra_at, route_of, place_in, contents_at, read_of, ReadSays, data_read_of, part_of};

use frame_form::Form;
use frame_kinds::{Found, Kind};
use little::flag;
use refusal::{Fault, Refusal};
use sequence::{LinkNumber, PacketNumber};

// The fields of a DATA packet.
#[derive(Clone, Copy, Debug, PartialEq, Eq)]
pub struct Data {
    // M: more of the message follows
    pub m: bool,
    // link sequence number, 0 to 63
    pub sn: LinkNumber,
    // packet sequence number, 0 to 15
    pub ps: PacketNumber,
    // the packet sequence number that the sender expects next, 0 to 15
    pub pr: PacketNumber,
    // channel, 0 to 15
    pub ch: u8,
}

// The fields of a CLEAR REQUEST packet.
#[derive(Clone, Copy, Debug, PartialEq, Eq)]
pub struct ClearRequest {
    // temporary channel, 0 to 3
    pub tc: u8,
    // link sequence number, 0 to 63
    pub sn: LinkNumber,
    // channel, 0 to 15
    pub ch: u8,
    // mobile address, 0 to 15
    pub am: u8,
    // ground address
    pub ag: u8,
    // clearing cause
    pub cc: u8,
    // diagnostic code
    pub dc: u8,
    // S: more pieces follow
    pub s: bool,
    // F: this is not the first piece
    pub f: bool,
}

// The fields of a CLEAR CONFIRMATION packet, with the same meaning and range as in a CLEAR REQUEST.
#[derive(Clone, Copy, Debug, PartialEq, Eq)]
pub struct ClearConfirmation {
    pub tc: u8,
    pub sn: LinkNumber,
    pub ch: u8,
    pub am: u8,
    pub ag: u8,
}

// The fields of a CALL REQUEST packet, in both directions. Uplink frames have no place for CH,
// downlink frames none for TC: it is 0 there.
#[derive(Clone, Copy, Debug, PartialEq, Eq)]
pub struct CallRequest {
    // P: priority
    pub p: bool,
    // link sequence number, 0 to 63
    pub sn: LinkNumber,
    // temporary channel, 0 to 3
    pub tc: u8,
    // channel, 0 to 15
    pub ch: u8,
    // mobile address, 0 to 15
    pub am: u8,
    // ground address
    pub ag: u8,
    // S: more pieces follow
    pub s: bool,
    // fast select, 0 to 3
    pub fs: u8,
    // F: this is not the first piece
    pub f: bool,
}

// The fields of a CALL ACCEPT packet, in both directions. Uplink frames have no place for TC: it is
// 0 there.
#[derive(Clone, Copy, Debug, PartialEq, Eq)]
pub struct CallAccept {
    pub tc: u8,
    pub sn: LinkNumber,
    pub ch: u8,
    pub am: u8,
    pub ag: u8,
    pub s: bool,
    pub f: bool,
}

// The fields of an RR, RNR or REJECT packet.
#[derive(Clone, Copy, Debug, PartialEq, Eq)]
pub struct FlowControl {
    pub sn: LinkNumber,
    pub ch: u8,
    // the packet sequence number that the sender expects next, 0 to 15
    pub pr: PacketNumber,
}

// The fields of an INTERRUPT packet.
#[derive(Clone, Copy, Debug, PartialEq, Eq)]
pub struct Interrupt {
    pub s: bool,
    pub f: bool,
    pub sn: LinkNumber,
    pub ch: u8,
}

// The fields of a RESET packet.
#[derive(Clone, Copy, Debug, PartialEq, Eq)]
pub struct Reset {
    pub sn: LinkNumber,
    pub ch: u8,
    // reset cause
    pub rc: u8,
    // diagnostic code
    pub dc: u8,
}

// The fields of an INTERRUPT CONFIRMATION or RESET CONFIRMATION packet.
#[derive(Clone, Copy, Debug, PartialEq, Eq)]
pub struct Confirmation {
    pub sn: LinkNumber,
    pub ch: u8,
}

// A packet of any kind but ROUTE.
#[derive(Clone, Copy, Debug, PartialEq, Eq)]
pub enum Packet {
    Data(Data),
    ClearRequest(ClearRequest),
    ClearConfirmation(ClearConfirmation),
    CallRequest(CallRequest),
    CallAccept(CallAccept),
    ReceiveReady(FlowControl),
    ReceiveNotReady(FlowControl),
    Reject(FlowControl),
    Interrupt(Interrupt),
    InterruptConfirmation(Confirmation),
    Reset(Reset),
    ResetConfirmation(Confirmation),
}

// Where the user data is in a frame: the index of its first byte, and its length in bytes.
#[derive(Clone, Copy, Debug, PartialEq, Eq)]
pub struct UserData {
    pub at: usize,
    pub len: usize,
}

// A ROUTE packet that was read: where its table is in the frame, and where its optional data is, if
// it has some; it may be empty, which is another value than none.
#[derive(Clone, Copy, Debug, PartialEq, Eq)]
pub struct Route {
    // IN: initialization
    pub initial: bool,
    pub table: UserData,
    // the optional data, if OF is set
    pub extra: Option<UserData>,
}

// What a frame contains: a packet and where its user data is, or a ROUTE.
#[derive(Clone, Copy, Debug, PartialEq, Eq)]
pub enum Contents {
    Packet(Packet, UserData),
    Route(Route),
}

// ---- a packet and its ten bytes: its kind, its values, and 0 up to ten

// The fields of DATA.
impl From<&[u8; 10]> for Data {
    ghost from_gives = { λ ten d. d ≡ data_of (drop 1 ten.now) };

    fn from(ten: &[u8; 10]) -> Data {
        let [_, m, sn, ps, pr, ch, ..] = *ten;
        Data {
            m: m == 1,
            sn: LinkNumber(sn),
            ps: PacketNumber(ps),
            pr: PacketNumber(pr),
            ch,
        }
    }
}

// The fields of a CLEAR REQUEST.
impl From<&[u8; 10]> for ClearRequest {
    ghost from_gives = { λ ten d. d ≡ clear_request_of (drop 1 ten.now) };

    fn from(ten: &[u8; 10]) -> ClearRequest {
        let [_, tc, sn, ch, am, ag, cc, dc, s, f] = *ten;
        ClearRequest {
            tc,
            sn: LinkNumber(sn),
            ch,
            am,
            ag,
            cc,
            dc,
            s: s == 1,
            f: f == 1,
        }
    }
}

// The fields of a CLEAR CONFIRMATION.
impl From<&[u8; 10]> for ClearConfirmation {
    ghost from_gives = { λ ten d. d ≡ clear_confirmation_of (drop 1 ten.now) };

    fn from(ten: &[u8; 10]) -> ClearConfirmation {
        let [_, tc, sn, ch, am, ag, ..] = *ten;
        ClearConfirmation {
            tc,
            sn: LinkNumber(sn),
            ch,
            am,
            ag,
        }
    }
}

// The fields of a CALL REQUEST.
impl From<&[u8; 10]> for CallRequest {
    ghost from_gives = { λ ten d. d ≡ call_request_of (drop 1 ten.now) };

    fn from(ten: &[u8; 10]) -> CallRequest {
        let [_, p, sn, tc, ch, am, ag, s, fs, f] = *ten;
        CallRequest {
            p: p == 1,
            sn: LinkNumber(sn),
            tc,
            ch,
            am,
            ag,
            s: s == 1,
            fs,
            f: f == 1,
        }
    }
}

// The fields of a CALL ACCEPT.
impl From<&[u8; 10]> for CallAccept {
    ghost from_gives = { λ ten d. d ≡ call_accept_of (drop 1 ten.now) };

    fn from(ten: &[u8; 10]) -> CallAccept {
        let [_, tc, sn, ch, am, ag, s, f, ..] = *ten;
        CallAccept {
            tc,
            sn: LinkNumber(sn),
            ch,
            am,
            ag,
            s: s == 1,
            f: f == 1,
        }
    }
}

// The fields of an RR, RNR or REJECT.
impl From<&[u8; 10]> for FlowControl {
    ghost from_gives = { λ ten d. d ≡ flow_control_of (drop 1 ten.now) };

    fn from(ten: &[u8; 10]) -> FlowControl {
        let [_, sn, ch, pr, ..] = *ten;
        FlowControl {
            sn: LinkNumber(sn),
            ch,
            pr: PacketNumber(pr),
        }
    }
}

// The fields of an INTERRUPT.
impl From<&[u8; 10]> for Interrupt {
    ghost from_gives = { λ ten d. d ≡ interrupt_of (drop 1 ten.now) };

    fn from(ten: &[u8; 10]) -> Interrupt {
        let [_, s, f, sn, ch, ..] = *ten;
        Interrupt {
            s: s == 1,
            f: f == 1,
            sn: LinkNumber(sn),
            ch,
        }
    }
}

// The fields of an INTERRUPT or RESET CONFIRMATION.
impl From<&[u8; 10]> for Confirmation {
    ghost from_gives = { λ ten d. d ≡ confirmation_of (drop 1 ten.now) };

    fn from(ten: &[u8; 10]) -> Confirmation {
        let [_, sn, ch, ..] = *ten;
        Confirmation {
            sn: LinkNumber(sn),
            ch,
        }
    }
}

// The fields of a RESET.
impl From<&[u8; 10]> for Reset {
    ghost from_gives = { λ ten d. d ≡ reset_of (drop 1 ten.now) };

    fn from(ten: &[u8; 10]) -> Reset {
        let [_, sn, ch, rc, dc, ..] = *ten;
        Reset {
            sn: LinkNumber(sn),
            ch,
            rc,
            dc,
        }
    }
}

// The packet of kind `kind` with these values; those after its last field are not read.
fn packet_of(kind: Kind, ten: &[u8; 10]) -> Packet
    ensures { result ≡ packet_of kind (drop 1 ten.now) }
{
    match kind {
        Kind::Data => Packet::Data(Data::from(ten)),
        Kind::ClearRequest => Packet::ClearRequest(ClearRequest::from(ten)),
        Kind::ClearConfirmation => Packet::ClearConfirmation(ClearConfirmation::from(ten)),
        Kind::CallRequest => Packet::CallRequest(CallRequest::from(ten)),
        Kind::CallAccept => Packet::CallAccept(CallAccept::from(ten)),
        Kind::ReceiveReady => Packet::ReceiveReady(FlowControl::from(ten)),
        Kind::ReceiveNotReady => Packet::ReceiveNotReady(FlowControl::from(ten)),
        Kind::Reject => Packet::Reject(FlowControl::from(ten)),
        Kind::Interrupt => Packet::Interrupt(Interrupt::from(ten)),
        Kind::InterruptConfirmation => Packet::InterruptConfirmation(Confirmation::from(ten)),
        Kind::Reset => Packet::Reset(Reset::from(ten)),
        Kind::ResetConfirmation => Packet::ResetConfirmation(Confirmation::from(ten)),
    }
}

// The packet that ten bytes hold.
#[tactic(auto, unfolding(crate::specs::Packets::packet_at))]
fn packet_at(ten: &[u8; 10]) -> Packet
    ensures { result ≡ packet_at ten.now }
{
    match frame_kinds::kind_at(ten[0]) {
        Found::Known(kind) => packet_of(kind, ten),
        Found::Route | Found::Unknown => packet_of(Kind::Data, ten),
    }
}

// A packet as ten bytes.
impl From<Packet> for [u8; 10] {
    ghost from_gives = { λ packet ten. ten ≡ packet_bytes packet };

    #[tactic(auto, unfolding(frame_kinds::specs::Kinds::ten_of))]
    #[rattlefmt::skip]
    fn from(packet: Packet) -> [u8; 10] {
        match packet {
            Packet::Data(d) => [0, flag(d.m), d.sn.0, d.ps.0, d.pr.0, d.ch, 0, 0, 0, 0],
            Packet::ClearRequest(d) => {
                [1, d.tc, d.sn.0, d.ch, d.am, d.ag, d.cc, d.dc, flag(d.s), flag(d.f)]
            }
            Packet::ClearConfirmation(d) => [2, d.tc, d.sn.0, d.ch, d.am, d.ag, 0, 0, 0, 0],
            Packet::CallRequest(d) => {
                [3, flag(d.p), d.sn.0, d.tc, d.ch, d.am, d.ag, flag(d.s), d.fs, flag(d.f)]
            }
            Packet::CallAccept(d) => {
                [4, d.tc, d.sn.0, d.ch, d.am, d.ag, flag(d.s), flag(d.f), 0, 0]
            }
            Packet::ReceiveReady(d) => [5, d.sn.0, d.ch, d.pr.0, 0, 0, 0, 0, 0, 0],
            Packet::ReceiveNotReady(d) => [6, d.sn.0, d.ch, d.pr.0, 0, 0, 0, 0, 0, 0],
            Packet::Reject(d) => [7, d.sn.0, d.ch, d.pr.0, 0, 0, 0, 0, 0, 0],
            Packet::Interrupt(d) => [8, flag(d.s), flag(d.f), d.sn.0, d.ch, 0, 0, 0, 0, 0],
            Packet::InterruptConfirmation(d) => [9, d.sn.0, d.ch, 0, 0, 0, 0, 0, 0, 0],
            Packet::Reset(d) => [10, d.sn.0, d.ch, d.rc, d.dc, 0, 0, 0, 0, 0],
            Packet::ResetConfirmation(d) => [11, d.sn.0, d.ch, 0, 0, 0, 0, 0, 0, 0],
        }
    }
}

impl Packet {
    // The packet if it is DATA, else nothing.
    pub fn data(self) -> Option<Data>
        ensures { result ≡ as_data self }
    {
        match self {
            Packet::Data(d) => Some(d),
            _ => None,
        }
    }

    // The packet's link sequence number.
    pub fn sn(self) -> LinkNumber
        ensures { result ≡ sn_of self }
    {
        match self {
            Packet::Data(d) => d.sn,
            Packet::ClearRequest(d) => d.sn,
            Packet::ClearConfirmation(d) => d.sn,
            Packet::CallRequest(d) => d.sn,
            Packet::CallAccept(d) => d.sn,
            Packet::ReceiveReady(d) => d.sn,
            Packet::ReceiveNotReady(d) => d.sn,
            Packet::Reject(d) => d.sn,
            Packet::Interrupt(d) => d.sn,
            Packet::InterruptConfirmation(d) => d.sn,
            Packet::Reset(d) => d.sn,
            Packet::ResetConfirmation(d) => d.sn,
        }
    }
}

// ---- writing

// A writer's answer, from the number that `frame_writer` gives.
#[tactic(auto, unfolding(crate::specs::Writing::written_at))]
fn written_at(answer: u64) -> Result<usize, Refusal>
    ensures { result ≡ written_at answer }
{
    if answer % 256 == 0 {
        Ok((answer / 256) as usize)
    } else {
        Err(Refusal::at((answer % 256) as u8))
    }
}

// Writes a DATA packet and its user data as one frame to the front of `out`: what `write_frame`
// does for DATA. For `message`, which writes DATA only; other callers use `write_frame`.
pub fn write_data(form: Form, packet: Data, user: &[u8], out: &mut [u8]) -> Result<usize, Refusal>
    ensures whole { result ≡ write_of form (Packet.Data packet) (length user.now) (length out.old) }
    ensures written { out.new ≡ write_output form (Packet.Data packet) user.now out.old }
    ensures number { refusal_number result ≡ refusal_number (frame_verdict form (Packet.Data packet) (length user.now) (length out.old)) }
    ensures value { written_bytes result ≡ value_by (frame_verdict form (Packet.Data packet) (length user.now) (length out.old)) (frame_length (seg_of form) (length_of (Packet.Data packet) (length user.now))) }
{
    let m = flag(packet.m);
    let form = form.number();
    let sn = packet.sn.0;
    let ps = packet.ps.0;
    let pr = packet.pr.0;
    let answer = frame_writer::write_data(form, m, sn, ps, pr, packet.ch, user, out);
    written_at(answer)
}

// Writes a packet and its user data as one frame to the front of `out`, and answers the frame's
// length. Checks 1, 23, 13, 5; a refusal writes nothing, and bytes beyond the frame keep what they
// held.
pub fn write_frame(
    form: Form,
    packet: Packet,
    user: &[u8],
    out: &mut [u8],
) -> Result<usize, Refusal>
    ensures whole { result ≡ write_of form packet (length user.now) (length out.old) }
    ensures written { out.new ≡ write_output form packet user.now out.old }
    ensures number { refusal_number result ≡ refusal_number (frame_verdict form packet (length user.now) (length out.old)) }
    ensures value { written_bytes result ≡ value_by (frame_verdict form packet (length user.now) (length out.old)) (frame_length (seg_of form) (length_of packet (length user.now))) }
{
    let ten = <[u8; 10]>::from(packet);
    written_at(frame_writer::write(form.number(), &ten, user, out))
}

// Writes a ROUTE packet as one frame to the front of `out`, and answers the frame's length.
// `optional` is OF: whether there is optional data, `extra`, which may be empty; `initial` is IN.
// The table is not looked into. Checks 1 (the form, or data although OF is not set), 23, 13, 5; a
// refusal writes nothing, and bytes beyond the frame keep what they held.
// Not `Option<&[u8]>`: refusal 1 answers data although OF is not set (`write_route_of`).
pub fn write_route(
    form: Form,
    optional: bool,
    initial: bool,
    table: &[u8],
    extra: &[u8],
    out: &mut [u8],
) -> Result<usize, Refusal>
    ensures whole { result ≡ write_route_of form optional initial (length table.now) (length extra.now) (length out.old) }
    ensures written { out.new ≡ write_route_output form optional initial table.now extra.now out.old }
    ensures number { refusal_number result ≡ refusal_number (route_said form optional initial (length table.now) (length extra.now) (length out.old)) }
    ensures value { written_bytes result ≡ value_by (route_said form optional initial (length table.now) (length extra.now) (length out.old)) (frame_length (seg_of form) (route_length (flag optional) (length table.now) (length extra.now))) }
{
    let o = flag(optional);
    let i = flag(initial);
    written_at(frame_writer::write_route(form.number(), o, i, table, extra, out))
}

// ---- reading

// Where the optional data of a ROUTE is, of whose header `n` bytes follow: after a table of `table`
// bytes and its own length.
fn extra_at(table: u8, n: usize) -> UserData
    ensures { result ≡ extra_at table n }
{
    let len = table as usize;
    if len < n {
        return UserData {
            at: 3 + len,
            len: n - (len + 1),
        };
    }
    UserData { at: 0, len: 0 }
}

// The ROUTE with these values, of OF, IN and RTL, which `n` bytes follow.
fn route_of(ten: &[u8; 10], n: usize) -> Route
    ensures { result ≡ route_of (drop 1 ten.now) n }
{
    let [_, optional, initial, table, ..] = *ten;
    let extra = if optional == 1 {
        Some(extra_at(table, n))
    } else {
        None
    };
    Route {
        initial: initial == 1,
        table: UserData {
            at: 2,
            len: table as usize,
        },
        extra,
    }
}

// What was read, from ten bytes and the place of what follows the header.
#[tactic(auto, unfolding(crate::specs::Reading::contents_at))]
fn contents_at(ten: &[u8; 10], user: UserData) -> Contents
    ensures { result ≡ contents_at ten.now user }
{
    // the number of ROUTE
    if ten[0] == 12 {
        return Contents::Route(route_of(ten, user.len));
    }
    Contents::Packet(packet_at(ten), user)
}

// The place that an answer of `frame_reader` names.
fn place_in(answer: u64) -> UserData
    ensures { result ≡ place_in answer }
{
    UserData {
        at: (answer / 256 % 256) as usize,
        len: (answer / 65536) as usize,
    }
}

// The refusal that an answer of `frame_reader` names, and where the frame is bad.
fn refused(form: u8, frame: &[u8], answer: u64) -> Fault
    ensures { result ≡ record { why = refusal_at (answer % 256); at = fault_answer form frame.now } }
{
    Fault {
        why: Refusal::at((answer % 256) as u8),
        at: frame_reader::fault(form, frame),
    }
}

// Reads a frame, checked in the order 1, 2, 3, 13. Where it is bad is asked only if it is.
pub fn read_frame(form: Form, frame: &[u8]) -> Result<Contents, Fault>
    ensures value { result ≡ read_of form frame.now }
    ensures says { ReadSays form frame.now result }
{
    let number = form.number();
    let mut ten = [0u8; 10];
    let answer = frame_reader::read(number, frame, &mut ten);
    if answer % 256 == 0 {
        return Ok(contents_at(&ten, place_in(answer)));
    }
    Err(refused(number, frame, answer))
}

// Reads a frame for its DATA: what `read_frame` answers, but no packet of another kind is made:
// it is `None`. For `message`, which joins DATA only; other callers use `read_frame`.
pub fn read_data(form: Form, frame: &[u8]) -> Result<Option<(Data, UserData)>, Fault>
    ensures { result ≡ data_read_of (read_of form frame.now) }
{
    let number = form.number();
    let mut ten = [0u8; 10];
    let answer = frame_reader::read(number, frame, &mut ten);
    if answer % 256 == 0 {
        if ten[0] == 0 {
            return Ok(Some((Data::from(&ten), place_in(answer))));
        }
        return Ok(None);
    }
    Err(refused(number, frame, answer))
}

// The user data of a frame, or the table or the optional data of a ROUTE, as a part of the frame.
// `place` is what reading answered; for another place, the part ends at the frame's end.
pub fn user_data(frame: &[u8], place: UserData) -> &[u8]
    ensures { result.now ≡ part_of frame.now place }
{
    let at = place.at;
    let len = place.len;
    if at <= frame.len() {
        if len <= frame.len() - at {
            return &frame[at..at + len];
        }
        return &frame[at..];
    }
    &frame[..0]
}
