//! The reader.

ghost use Rattle.std.specs.Prelude.{◌≡◌, ◌↔◌, IsTrue, ◌<◌, ◌≤◌, ◌+◌, ◌^◌, [], ℕ, ◌∷◌, None, Some, IfOk, true, false, length, vec_len, vec_capacity};
ghost use Rattle.std.specs.List.{list_any};
ghost use Rattle.lt_num.specs.Bounds.{most_decimals};
ghost use Rattle.lt_rif.specs.Reply.{after_word, longest, needs};
ghost use Rattle.lt_rif.specs.Word.{is_blank};

use crate::draft::{Draft, Effect, LONGEST, Look};
use crate::fault::ValueFault;
use crate::slot::Slot;
use crate::word::{is_blank, length_of_chunk};
use lt_num::Value;
use std::alloc::{AllocError, Global};

/// What a reader makes of a piece of its stream.
#[derive(Clone, Copy, PartialEq, Eq)]
pub enum Fed {
    /// So many bytes of the piece end a reply, and the next piece begins another.
    Whole(usize),

    /// The whole piece was used, and the reply is not whole.
    More,

    /// The reply is refused, with the place in the stream.
    Malformed(ValueFault, usize),
}

/// What the end of its stream makes of the reply at hand.
#[derive(Clone, Copy, PartialEq, Eq)]
pub enum Closing {
    /// It is whole.
    Whole,

    /// It is not whole, and takes so many bytes.
    Short(usize),

    /// It is refused, with the place in the stream.
    Malformed(ValueFault, usize),
}

/// Why and where a reply is refused.
#[derive(Clone, Copy, PartialEq, Eq)]
pub struct Refusal {
    /// What is wrong.
    pub fault: ValueFault,

    /// The place in the stream, from its first byte.
    pub place: usize,
}

/// Reads the replies of a stream that comes in pieces.
#[derive(Drop)]
pub struct Reader {
    draft: Draft,
    refusal: Option<Refusal>,
    values: Vec<Value>,
    ghost values_have_room: { vec_len draft.slots ≤ vec_capacity values },
    ghost no_bytes: { vec_len draft.slots ≡ 0 → draft.taken + vec_len draft.word ≡ 0 },
    ghost few_values: { vec_len values ≤ vec_len draft.slots },
    ghost is_short: { refusal ≡ None → draft.taken + vec_len draft.word < longest },
    ghost has_slot: { refusal ≡ None → 0 < vec_len draft.slots →
        draft.filled < vec_len draft.slots },
}

impl Reader {
    ghost use Rattle.lt_rif.specs.Reading.{answer, reading, values_of, given, between, FedTells, FedMoves, FedKeeps, ClosingTells, ClosingMoves, ClosingKeeps};
    ghost use Rattle.lt_rif.specs.inner.Draft.{filled_with};
    ghost use Rattle.lt_rif.specs.View.{begun};
    ghost use Rattle.lt_rif.specs.inner.Chunk.{IsChunk};
    ghost use Rattle.lt_rif.specs.inner.Open.{open_at};

    /// A reader of replies with these slots, whose reals have so many decimals, 0 to 6, from the beginning of a
    /// stream. Only this call takes memory.
    pub fn make(alloc: Global, slots: Vec<Slot>, decimals: u32) -> Result<Reader, AllocError>
        requires { decimals ≤ most_decimals }
        ensures begins { IfOk result (λ r. reading r ≡ between decimals slots.items 0) }
        ensures values { IfOk result (λ r. values_of r ≡ []) }
    {
        let count = slots.len();
        Ok(Reader {
            draft: Draft {
                decimals,
                slots,
                filled: 0,
                values: Vec::with_capacity(alloc, count)?,
                is_comment: false,
                taken: 0,
                place: 0,
                word: Vec::with_capacity(alloc, LONGEST)?,
            },
            refusal: None,
            values: Vec::with_capacity(alloc, count)?,
        })
    }

    /// The values that the last whole reply keeps; none before the first one.
    pub fn values(&self) -> &[Value]
        ensures values { result.now ≡ values_of self.now }
        ensures few { length result.now ≤ length (reading self.now).slots }
    {
        &self.values
    }

    /// Whether the reply at hand needs a byte: it isn't refused, and has slots.
    #[tactic(auto, unfolding(crate::specs::Reading::answer))]
    pub fn needs_byte(&self) -> bool
        ensures { IsTrue result ↔ (answer (reading self.now) [] false ≡ needs) }
    {
        self.refusal.is_none() && !self.draft.slots.is_empty()
    }

    /// Takes the next piece of the stream, up to the end of a reply.
    ///
    /// After [`Fed::Whole`] the next piece begins with the bytes of this one that were left. After
    /// [`Fed::Malformed`] each further call answers the same.
    pub fn feed(&mut self, piece: &[u8]) -> Fed
        requires { given (reading self.old) + length piece.now < 2 ^ 63 }
        ensures tells { FedTells (reading self.old) piece.now result (reading self.new)
            (values_of self.new) }
        ensures moves { FedMoves (reading self.old) piece.now result (reading self.new) }
        ensures keeps { FedKeeps result (values_of self.old) (values_of self.new) }
        ensures slots { (reading self.new).slots ≡ (reading self.old).slots }
        ensures decimals { (reading self.new).begun.decimals ≡ (reading self.old).begun.decimals }
        ensures short { (reading self.new).begun.taken + length (reading self.new).text ≤ longest }
    {
        if let Some(refusal) = self.refusal {
            return Fed::Malformed(refusal.fault, refusal.place);
        }
        if self.draft.slots.is_empty() {
            self.skip_reply();
            return Fed::Whole(0);
        }
        let mut used = 0;
        while used < piece.len() {
            let chunk = length_of_chunk(&piece[used..]);
            match self.take(&piece[used..used + chunk]) {
                Fed::More => {}
                Fed::Whole(_) => return Fed::Whole(used + chunk),
                Fed::Malformed(fault, place) => return Fed::Malformed(fault, place),
            }
            used += chunk;
        }
        Fed::More
    }

    /// What the end of the stream makes of the reply at hand.
    ///
    /// After [`Closing::Whole`] the next call speaks of the next reply, of which no byte comes. After the other
    /// answers each further call answers the same.
    pub fn finish(&mut self) -> Closing
        requires { given (reading self.old) < 2 ^ 63 }
        ensures tells { ClosingTells (reading self.old) result (reading self.new)
            (values_of self.new) }
        ensures moves { ClosingMoves (reading self.old) result (reading self.new) }
        ensures keeps { ClosingKeeps result (values_of self.old) (values_of self.new) }
        ensures slots { (reading self.new).slots ≡ (reading self.old).slots }
        ensures decimals { (reading self.new).begun.decimals ≡ (reading self.old).begun.decimals }
        ensures short { (reading self.new).begun.taken + length (reading self.new).text ≤ longest }
    {
        if let Some(refusal) = self.refusal {
            return Closing::Malformed(refusal.fault, refusal.place);
        }
        if self.draft.slots.is_empty() {
            self.skip_reply();
            return Closing::Whole;
        }
        match self.draft.look(true) {
            Look::Pass { .. } => Closing::Short(self.draft.taken + self.draft.word.len()),
            Look::Value { value, keep } => self.finish_with(value, keep),
            Look::Refused(fault) => {
                let place = self.draft.place + self.draft.taken;
                self.refusal = Some(Refusal { fault, place });
                Closing::Malformed(fault, place)
            }
        }
    }

    // Ends a reply of no slots, which needs no byte.
    fn skip_reply(&mut self)
        requires none { vec_len self.old.draft.slots ≡ 0 }
        requires goes_on { self.old.refusal ≡ None }
        ensures begins { reading self.new ≡
            between self.old.draft.decimals self.old.draft.slots.items self.old.draft.place }
        ensures values { values_of self.new ≡ [] }
    {
        let place = self.draft.place;
        self.draft.restart(&mut self.values, place);
    }

    // Ends the stream after the word of a value.
    fn finish_with(&mut self, value: Value, keep: bool) -> Closing
        requires goes_on { self.old.refusal ≡ None }
        requires some { 0 < vec_len self.old.draft.slots }
        requires place { given (reading self.old) < 2 ^ 63 }
        requires ends { after_word (begun self.old.draft) self.old.draft.word.items true ≡
            filled_with self.old.draft value keep }
        ensures tells { ClosingTells (open_at self.old.draft) result (reading self.new)
            (values_of self.new) }
        ensures moves { ClosingMoves (open_at self.old.draft) result (reading self.new) }
        ensures keeps { ClosingKeeps result (values_of self.old) (values_of self.new) }
        ensures slots { self.new.draft.slots ≡ self.old.draft.slots }
        ensures decimals { self.new.draft.decimals ≡ self.old.draft.decimals }
    {
        let taken = self.draft.taken + self.draft.word.len();
        if self.draft.filled + 1 < self.draft.slots.len() {
            return Closing::Short(taken);
        }
        let place = self.draft.place + taken;
        self.draft.add(value, keep);
        self.draft.restart(&mut self.values, place);
        Closing::Whole
    }

    // Takes a blank, or a run of bytes that aren't blank.
    fn take(&mut self, chunk: &[u8]) -> Fed
        requires goes_on { self.old.refusal ≡ None }
        requires some { 0 < vec_len self.old.draft.slots }
        requires place { given (reading self.old) + length chunk.now < 2 ^ 63 }
        requires chunk { IsChunk chunk.now }
        ensures tells { FedTells (open_at self.old.draft) chunk.now result (reading self.new)
            (values_of self.new) }
        ensures moves { FedMoves (open_at self.old.draft) chunk.now result (reading self.new) }
        ensures keeps { FedKeeps result (values_of self.old) (values_of self.new) }
        ensures slots { self.new.draft.slots ≡ self.old.draft.slots }
        ensures decimals { self.new.draft.decimals ≡ self.old.draft.decimals }
        ensures all { (n : ℕ) → result ≡ Fed.Whole n → n ≡ length chunk.now }
        ensures goes_on { result ≡ Fed.More → self.new.refusal ≡ None }
    {
        if is_blank(chunk[0]) {
            self.take_blank(chunk[0])
        } else {
            self.take_run(chunk)
        }
    }

    // Takes a run of bytes that aren't blank.
    fn take_run(&mut self, run: &[u8]) -> Fed
        requires goes_on { self.old.refusal ≡ None }
        requires some { 0 < vec_len self.old.draft.slots }
        requires begins { 0 < length run.now }
        requires run { list_any is_blank run.now ≡ false }
        ensures tells { FedTells (open_at self.old.draft) run.now result (reading self.new)
            (values_of self.new) }
        ensures moves { FedMoves (open_at self.old.draft) run.now result (reading self.new) }
        ensures keeps { FedKeeps result (values_of self.old) (values_of self.new) }
        ensures slots { self.new.draft.slots ≡ self.old.draft.slots }
        ensures decimals { self.new.draft.decimals ≡ self.old.draft.decimals }
        ensures all { (n : ℕ) → result ≡ Fed.Whole n → n ≡ length run.now }
        ensures goes_on { result ≡ Fed.More → self.new.refusal ≡ None }
    {
        if run.len() >= LONGEST - self.draft.taken - self.draft.word.len() {
            return refuse(&mut self.refusal, ValueFault::TooLong, self.draft.place);
        }
        self.draft.word.extend_from_slice(run).unwrap();
        Fed::More
    }

    // Takes a blank.
    fn take_blank(&mut self, byte: u8) -> Fed
        requires goes_on { self.old.refusal ≡ None }
        requires some { 0 < vec_len self.old.draft.slots }
        requires blank { is_blank byte ≡ true }
        requires place { given (reading self.old) + 1 < 2 ^ 63 }
        ensures tells { FedTells (open_at self.old.draft) (byte ∷ []) result (reading self.new)
            (values_of self.new) }
        ensures moves { FedMoves (open_at self.old.draft) (byte ∷ []) result (reading self.new) }
        ensures keeps { FedKeeps result (values_of self.old) (values_of self.new) }
        ensures slots { self.new.draft.slots ≡ self.old.draft.slots }
        ensures decimals { self.new.draft.decimals ≡ self.old.draft.decimals }
        ensures all { (n : ℕ) → result ≡ Fed.Whole n → n ≡ 1 }
        ensures goes_on { result ≡ Fed.More → self.new.refusal ≡ None }
    {
        match self.draft.end_word(byte == b'\n') {
            Effect::More => {
                if self.draft.is_full() {
                    return refuse(&mut self.refusal, ValueFault::TooLong, self.draft.place);
                }
                Fed::More
            }
            Effect::Done => {
                let place = self.draft.place + self.draft.taken;
                self.draft.restart(&mut self.values, place);
                Fed::Whole(1)
            }
            Effect::Refused(fault) => {
                let place = self.draft.place + self.draft.taken;
                refuse(&mut self.refusal, fault, place)
            }
        }
    }
}

// Refuses a reply for this fault, at this place of the stream.
fn refuse(refusal: &mut Option<Refusal>, fault: ValueFault, place: usize) -> Fed
    ensures answer { result ≡ Fed.Malformed fault place }
    ensures refusal { refusal.new ≡ Some (record { fault = fault; place = place }) }
{
    *refusal = Some(Refusal { fault, place });
    Fed::Malformed(fault, place)
}
