// What one pass over the messages on their way notes: where each lies, whether one is overdue, and whether two agree in all
// four names. Words and count come apart, as in `flight`.
#![tactic(auto)]

ghost use Rattle.std.specs.Prelude.{◌≡◌, ◌&&◌, not, ◌*◌, ◌-◌, ◌≤◌, min, ltb, eqb, length, set};
ghost use Rattle.clock.specs.Pick.{pick};
ghost use Rattle.flight.specs.Message as flight;
ghost use Rattle.notes.specs.Notes.{noted, before};

use clock::{LAST, Moment};
use flight::Names;

// ---- places

// Notes one place; nothing past the end.
fn note_place(places: &mut [u64], at: usize, i: u64)
    ensures { places.new ≡ set places.old at i }
{
    if at < places.len() {
        places[at] = i;
    }
}

// Notes where each of the messages from `from` up to `to` lies, for its sender, recipient and kind; of two that share these
// the later one stays noted. Nothing where the words do not hold so many.
pub fn note_places(words: &[u64], from: u64, to: u64, places: &mut [u64])
    ensures { places.new ≡ pick (flight.holds to words.now)
        (flight.places_to words.now from (to - from) places.old) places.old }
{
    if to > (words.len() / 3) as u64 {
        return;
    }
    for i in from..to {
        note_place(places, (words[(3 * i) as usize] % 512) as usize, i);
    }
}

// ---- overdue messages

// Notes for each pair of sender and recipient the oldest time sent.
fn note(words: &[u64], count: u64, oldest: &mut [u64])
    requires count_in_bounds { 3 * count ≤ length words.now }
    requires oldest_len { length oldest.old ≡ 256 }
    ensures { oldest.new ≡ noted count words.now oldest.old }
{
    for i in 0..count {
        let at = (words[(3 * i) as usize] % 256) as usize;
        oldest[at] = oldest[at].min(words[(3 * i + 2) as usize]);
    }
}

// Whether for some sender and recipient the oldest time sent is before the limit: the search ends at the first.
fn search(oldest: &[u64], limit: u64) -> bool
    requires { length oldest.now ≡ 256 }
    ensures { result ≡ flight.some_of (before limit) oldest.now }
{
    let mut found = false;
    'search: for sender in 0..16usize {
        for recipient in 0..16usize {
            if oldest[sender * 16 + recipient] < limit {
                found = true;
                break 'search;
            }
        }
    }
    found
}

// Whether a message is in flight that was sent more than `wait` before `time`; one sent exactly so long before is in
// time. No where the words do not hold so many messages.
pub fn overdue(words: &[u64], count: u64, time: Moment, wait: u64) -> bool
    ensures { result ≡ (flight.holds count words.now && flight.overdue time.0 wait (flight.decode count words.now)) }
{
    if count > (words.len() / 3) as u64 {
        return false;
    }
    if time.0 < wait {
        return false;
    }
    let mut oldest = [LAST; 256];
    note(words, count, &mut oldest);
    search(&oldest, time.0 - wait)
}

// ---- twins

// Whether a word stands among the first words of `i` messages: never where its place was not marked.
fn again(words: &[u64], i: u64, key: u64, mark: u8) -> bool
    requires { 3 * i ≤ length words.now }
    ensures { result ≡ (not (eqb mark 0) && ltb (flight.index_of (flight.unpacked key) (flight.decode i words.now)) i) }
{
    if mark == 0 {
        return false;
    }
    let m = flight::unpack(key, 0, 0);
    flight::find(words, i, Names::from(m), &[]).is_some()
}

// Whether two messages in flight agree in all four names. No where the words do not hold so many messages.
pub fn twins(words: &[u64], count: u64) -> bool
    ensures { result ≡ (flight.holds count words.now && flight.twins (flight.decode count words.now)) }
{
    if count > (words.len() / 3) as u64 {
        return false;
    }
    let mut marks = [0u8; 1024];
    for i in 0..count {
        let key = words[(3 * i) as usize];
        let at = (key % 1024) as usize;
        if again(words, i, key, marks[at]) {
            return true;
        }
        marks[at] = 1;
    }
    false
}
