// The script reader: the lent bytes and its place, kept together. Its methods are thin; the work is done by the readers
// that take slice and place. Any place is answered, one past the bytes too.
#![tactic(auto)]

ghost use Rattle.std.specs.Prelude.{◌≡◌};
ghost use Rattle.script.specs.Read as script;
ghost use Rattle.reader.specs.Reader as form;

use number::read_number;
use refusal::Refusal;
use script::{EventRead, SetupRead, read_event, read_setup};

// The lent bytes, and the place of the next one to be read.
#[derive(Clone, Copy)]
pub struct Reader<'a> {
    pub bytes: &'a [u8],
    pub place: usize,
}

// The part of the bytes from a place on; where the place is past them, the empty part at their end.
fn part(bytes: &[u8], at: usize) -> &[u8]
    ensures bytes_left { result.now ≡ form.part_from bytes.entry at }
    ensures address { result.ref_ptr ≡ form.part_ptr bytes.entry at }
{
    &bytes[at.min(bytes.len())..]
}

impl<'a> Reader<'a> {
    // A reader that stands at a place of the lent bytes.
    #[tactic(auto, unfolding(crate::specs::Reader::reader_at))]
    pub fn at(bytes: &'a [u8], place: usize) -> Reader<'a>
        ensures { result ≡ form.reader_at bytes.entry place }
    {
        Reader { bytes, place }
    }

    // Where it stands.
    pub fn place(self) -> usize
        ensures { result ≡ self.entry.place }
    {
        self.place
    }

    // The unread rest: that part of the lent bytes, and no copy.
    #[tactic(auto, unfolding(crate::specs::Reader::rest_of, crate::specs::Reader::rest_ptr))]
    pub fn rest(self) -> &'a [u8]
        ensures bytes_left { result.now ≡ form.rest_of self.entry }
        ensures address { result.ref_ptr ≡ form.rest_ptr self.entry }
    {
        part(self.bytes, self.place)
    }

    // Reads a number. It then stands behind it, or at the script's end where it is refused.
    #[tactic(auto, unfolding(crate::specs::Reader::number_of, crate::specs::Reader::number_at, crate::specs::Reader::as_number, crate::specs::Reader::after_number, crate::specs::Reader::stands_at))]
    pub fn number(&mut self) -> Result<u64, Refusal>
        ensures value { form.told_number self.new.place result ≡ form.number_of self.old }
        ensures reader_after { self.new ≡ form.after_number self.old }
    {
        let answer = read_number(self.bytes, self.place);
        let Ok((value, next)) = answer else {
            self.place = self.bytes.len();
            return Err(answer.unwrap_err());
        };
        self.place = next;
        Ok(value)
    }

    // Reads an event of a line of so many stations.
    #[tactic(auto, unfolding(crate::specs::Reader::event_of, crate::specs::Reader::after_event, crate::specs::Reader::stands_at, script::specs::Read::none_read))]
    pub fn event(&mut self, stations: u64) -> Result<EventRead, Refusal>
        ensures value { script.told_event self.old.bytes.now result ≡ form.event_of stations self.old }
        ensures reader_after { self.new ≡ form.after_event stations self.old }
    {
        let read = read_event(self.bytes, self.place, stations);
        self.place = match read {
            Ok(read) => read.next,
            Err(_) => self.bytes.len(),
        };
        read
    }

    // Reads the setup. As in `event` the reader then goes on: one function for both would take the reading as a closure.
    #[tactic(auto, unfolding(crate::specs::Reader::setup_of, crate::specs::Reader::after_setup, crate::specs::Reader::stands_at, script::specs::Read::unread))]
    pub fn setup(&mut self) -> Result<SetupRead, Refusal>
        ensures value { script.told_setup self.old.bytes.now result ≡ form.setup_of self.old }
        ensures reader_after { self.new ≡ form.after_setup self.old }
    {
        let read = read_setup(self.bytes, self.place);
        self.place = match read {
            Ok(read) => read.next,
            Err(_) => self.bytes.len(),
        };
        read
    }
}

// Reads the event at a place by a reader that stands there.
#[tactic(auto, unfolding(crate::specs::Reader::reader_at))]
pub fn event_at(bytes: &[u8], place: usize, stations: u64) -> Result<EventRead, Refusal>
    ensures { script.told_event bytes.entry.now result ≡ form.event_of stations (form.reader_at bytes.entry place) }
{
    let mut reader = Reader::at(bytes, place);
    reader.event(stations)
}

// The unread rest behind the event at a place.
pub fn rest_behind(bytes: &[u8], place: usize, stations: u64) -> &[u8]
    ensures bytes_left { result.now ≡ form.rest_of (form.after_event stations (form.reader_at bytes.entry place)) }
    ensures address { result.ref_ptr ≡ form.rest_ptr (form.after_event stations (form.reader_at bytes.entry place)) }
{
    let mut reader = Reader::at(bytes, place);
    let _ = reader.event(stations);
    reader.rest()
}
