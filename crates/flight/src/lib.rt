// The messages on their way, in words that the caller lends: three words to a message, the first its four names in one
// number, then the signers, then the time sent. A flight of `count` messages is the first `count` of the words' messages; the two
// come apart, since any count and any words that are lent have to be answered.
#![tactic(auto)]

ghost use Rattle.std.specs.Prelude.{◌≡◌, ◌-◌, true, ◌++◌, ◌+◌, ◌*◌, ◌%◌, ◌≤◌, ◌<◌, length, get_or, unwrap_or, IfSome};
ghost use Rattle.clock.specs.Limits.{max_stations};
ghost use Rattle.clock.specs.Pick.{pick};
ghost use Rattle.mask.specs.Mask.{has};
ghost use Rattle.flight.specs.Message as flight;
ghost use Rattle.flight.specs.Keys.{Packs};

use clock::{MAX_STATIONS, Moment};

// What names a message.
#[derive(Clone, Copy)]
pub struct Names {
    pub sender: u64,
    pub recipient: u64,
    pub round: u64,
    pub kind: u64,
}

// A message on its way: kind 0 is a ready, kind 1 a relay; the signers are a mask of stations. The kind stays a number: a record
// may hold any, and 10 answers it.
#[derive(Clone, Copy)]
pub struct Message {
    pub sender: u64,
    pub recipient: u64,
    pub round: u64,
    pub kind: u64,
    pub signers: u64,
    pub sent: Moment,
}

// The four names of a message.
impl From<Message> for Names {
    ghost from_gives = { λ m x. x ≡ flight.names_of m };

    fn from(m: Message) -> Names {
        Names {
            sender: m.sender,
            recipient: m.recipient,
            round: m.round,
            kind: m.kind,
        }
    }
}

// One more than the largest round that a word holds beside the other names.
const ROUNDS: u64 = 36_028_797_018_963_968;

// ---- words

// The word at a place; 0 past the end.
fn word(words: &[u64], at: usize) -> u64
    ensures { result ≡ get_or words.now at 0 }
{
    words.get(at).copied().unwrap_or(0)
}

// The message of three words.
pub fn unpack(key: u64, signers: u64, sent: u64) -> Message
    ensures { result ≡ flight.message_of key signers sent }
{
    Message {
        sender: key / 16 % 16,
        recipient: key % 16,
        round: key / 512,
        kind: key / 256 % 2,
        signers,
        sent: Moment(sent),
    }
}

// Whether a word holds a sender, a round and a kind beside any recipient.
fn packs(sender: u64, round: u64, kind: u64) -> bool
    ensures { result ≡ flight.packs sender round kind }
{
    (sender < 16) & ((round < ROUNDS) & (kind < 2))
}

// The word that holds the names.
fn pack(x: Names) -> u64
    requires { (x.recipient < 16) × Packs x.sender x.round x.kind }
    ensures { result ≡ flight.packed x }
{
    x.round * 512 + x.kind * 256 + x.sender * 16 + x.recipient
}

// Three words from a place on.
fn put(words: &mut [u64], at: usize, key: u64, signers: u64, sent: u64)
    requires { at + 2 < length words.old }
    ensures { words.new ≡ flight.stored words.old at key signers sent }
{
    words[at..at + 3].copy_from_slice(&[key, signers, sent]);
}

// The i-th message of the words; a word past their end counts as 0.
pub fn message_at(words: &[u64], i: u64) -> Message
    ensures { result ≡ flight.message_at words.now i }
{
    let at = i as usize;
    if at >= words.len() {
        return unpack(0, 0, 0);
    }
    unpack(
        word(words, 3 * at),
        word(words, 3 * at + 1),
        word(words, 3 * at + 2),
    )
}

// ---- finding a message

// How many of `count` messages are left from the first on whose first word is `key`; 0 where none is. Called, not inlined: the loop
// over the script stays small, and this one, which answers what it counts, is of few bytes.
#[inline(never)]
fn left_from(words: &[u64], count: u64, key: u64) -> u64
    requires { 3 * count ≤ length words.now }
    ensures { result ≡ count - flight.index_of (flight.unpacked key) (flight.decode count words.now) }
{
    // `find` over the places is slower.
    for i in 0..count {
        if words[(3 * i) as usize] == key {
            return count - i;
        }
    }
    0
}

// The first of `count` messages whose first word is `key`.
fn seek(words: &[u64], count: u64, key: u64) -> Option<u64>
    requires { 3 * count ≤ length words.now }
    ensures found { unwrap_or result count ≡ flight.index_of (flight.unpacked key) (flight.decode count words.now) }
    ensures within { IfSome result (λ i. i < count) }
{
    let left = left_from(words, count, key);
    if left == 0 {
        return None;
    }
    Some(count - left)
}

// The place `near` where the message there has the first word `key`, else what `seek` finds.
fn seek_near(words: &[u64], count: u64, key: u64, near: u64) -> Option<u64>
    requires { 3 * count ≤ length words.now }
    ensures found { unwrap_or result count ≡ flight.near_or near (flight.unpacked key) (flight.decode count words.now) }
    ensures within { IfSome result (λ i. i < count) }
{
    if near >= count {
        return seek(words, count, key);
    }
    if words[(3 * near) as usize] == key {
        return Some(near);
    }
    seek(words, count, key)
}

// The place of the message with these names; none where no message has them or the words do not hold so many. The place
// noted for its sender, recipient and kind is looked at first: places that are not right cost time, and they change no
// answer where no two messages agree in all four names.
pub fn find(words: &[u64], count: u64, names: Names, places: &[u64]) -> Option<u64>
    ensures found { unwrap_or result count ≡ pick (flight.holds count words.now)
        (flight.near_or (get_or places.now (flight.packed names % 512) 0) names (flight.decode count words.now)) count }
    ensures within { IfSome result (λ i. i < count) }
{
    if count > (words.len() / 3) as u64 {
        return None;
    }
    if names.recipient >= 16 {
        return None;
    }
    if !packs(names.sender, names.round, names.kind) {
        return None;
    }
    let key = pack(names);
    seek_near(words, count, key, word(places, (key % 512) as usize))
}

// ---- taking one out

// The three words at `from` copied to `at`.
fn move_to(words: &mut [u64], from: usize, at: usize)
    requires { (from + 2 < length words.old) × (at + 2 < length words.old) }
    ensures { words.new ≡ flight.stored words.old at (get_or words.old from 0)
        (get_or words.old (from + 1) 0) (get_or words.old (from + 2) 0) }
{
    words.copy_within(from..from + 3, at);
}

// The i-th message leaves the flight, and the last one takes its place. The answer is the number of messages then. Refused
// where there is no such message.
pub fn take_out(words: &mut [u64], count: u64, i: u64) -> Option<u64>
    ensures value { flight.answer_of count result ≡ flight.answer (flight.can_take count words.old i) count
        (flight.without i (flight.decode count words.old)) }
    ensures words_after { words.new ≡ flight.after (flight.can_take count words.old i) words.old
        (flight.without i (flight.decode count words.old)) }
{
    if count > (words.len() / 3) as u64 {
        return None;
    }
    if i >= count {
        return None;
    }
    move_to(words, (3 * (count - 1)) as usize, (3 * i) as usize);
    Some(count - 1)
}

// ---- sending

// One message more behind `n` others where `go` says so. The answer is their number then.
fn put_next(words: &mut [u64], n: u64, key: u64, signers: u64, sent: u64, go: bool) -> u64
    requires { go ≡ true → 3 * n + 2 < length words.old }
    ensures value { result ≡ pick go (n + 1) n }
    ensures words_after { words.new ≡ pick go (flight.stored words.old (3 * n) key signers sent) words.old }
{
    if go {
        put(words, (3 * n) as usize, key, signers, sent);
        return n + 1;
    }
    n
}

// The message to each station in the mask, behind `count` others: readies and relays go to many at once. The answer is the
// number of messages then.
fn lay(words: &mut [u64], count: u64, m: Message, to: u64) -> u64
    requires packs { Packs m.sender m.round m.kind }
    requires to_in_bounds { 3 * (count + length (flight.sent_to m max_stations to)) ≤ length words.old }
    ensures value { result ≡ count + length (flight.sent_to m max_stations to) }
    ensures words_after { words.new ≡ flight.coded words.old (flight.decode count words.old ++ flight.sent_to m max_stations to) }
{
    let key = pack(Names {
        sender: m.sender,
        recipient: 0,
        round: m.round,
        kind: m.kind,
    });
    let mut n = count;
    for k in 0..MAX_STATIONS {
        n = put_next(words, n, key + k, m.signers, m.sent.0, mask::has(to, k));
    }
    n
}

// The message goes to each station in the mask, stations at 12 or above aside. The answer is the number of messages then.
// Refused where a word cannot hold its names or where the words have no room for all of them.
pub fn send(words: &mut [u64], count: u64, m: Message, to: u64) -> Option<u64>
    ensures value { flight.answer_of count result ≡ flight.answer (flight.can_send count words.old m max_stations to) count
        (flight.decode count words.old ++ flight.sent_to m max_stations to) }
    ensures words_after { words.new ≡ flight.after (flight.can_send count words.old m max_stations to) words.old
        (flight.decode count words.old ++ flight.sent_to m max_stations to) }
{
    if !packs(m.sender, m.round, m.kind) {
        return None;
    }
    if count > (words.len() / 3) as u64 {
        return None;
    }
    if count + mask::count(to % 4096) > (words.len() / 3) as u64 {
        return None;
    }
    Some(lay(words, count, m, to))
}
