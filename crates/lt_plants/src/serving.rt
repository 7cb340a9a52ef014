//! All lines of a link.

ghost use Rattle.std.specs.Prelude.{◌≡◌, ◌≤◌, ◌++◌, [], ◌∷◌, length};
ghost use Rattle.lt_plants.specs.Service.{IsDue, IsServedOver, input_of, line, longest_line};
ghost use Rattle.lt_plants.specs.inner.Endings.{code_of};
ghost use Rattle.lt_plants.specs.inner.Going.{SendsLine, ServesLink, Takes, TakesPiece, due_after, limited_of};

use crate::ending::Ending;
use crate::line::{Line, TooLong};
use crate::playing::{Playing, reply};
use lt_io::{Failed, Link};

// How many bytes end a service that has taken them.
const MOST_TAKEN: u64 = 1 << 63;

/// Replies to all lines of a link, each reply with a line feed, and answers why it ends.
///
/// A line is what ends in a line feed, and the rest is what stands after the last one. A line is bad where it has
/// more than 4,096 bytes before its line feed, or where the plant has no reply to it. The lines before the first
/// bad one get their replies; that one and the rest get none.
///
/// | Answer | Where |
/// |---|---|
/// | 0 | the input ends, no line is bad, and the rest has at most 4,096 bytes |
/// | 1 | the first bad line has at most 4,096 bytes |
/// | 2 | the first bad line has more, or no line is bad and the rest has more |
/// | 4 | 2^63 bytes or more were taken before one of these answers |
/// | 9 | the link failed, and its count of faults rose |
pub fn serve<L: Link>(playing: &mut Playing, link: &mut L) -> u8
    ensures served { IsServedOver playing.old.plant playing.old.last
        (L.state link.old) (L.state link.new) result }
    ensures plant { playing.new.plant ≡ playing.old.plant }
{
    let mut session = Session {
        playing: *playing,
        line: Line::new(),
    };
    let ending = session.serve(link);
    *playing = session.playing;
    ending.code()
}

// A plant on its way through an input.
#[derive(Drop)]
struct Session {
    playing: Playing,
    line: Line,
}

impl Session {
    // Replies to all lines.
    fn serve<L: Link>(&mut self, link: &mut L) -> Ending
        requires { self.old.line ≡ [] }
        ensures served { ServesLink self.old.playing.plant self.old.playing.last
            (L.state link.old) (L.state link.new) result }
        ensures plant { self.new.playing.plant ≡ self.old.playing.plant }
    {
        let mut buffer = [0; 4096];
        let mut taken = 0;
        loop {
            let Ok(count) = link.recv(&mut buffer) else {
                return Ending::Failed;
            };
            if count == 0 {
                return Ending::Ended;
            }
            taken += count as u64;
            if let Some(ending) = self.take_piece(&buffer[..count], taken, link) {
                return ending;
            }
        }
    }

    // Takes some bytes, the last of so many, and answers how the service ends there, where it does.
    fn take_piece<L: Link>(&mut self, piece: &[u8], taken: u64, link: &mut L) -> Option<Ending>
        requires { length self.old.line ≤ longest_line }
        ensures takes { TakesPiece (L.state link.old) (L.state link.new)
            (λ bytes. due_after self.old.playing.plant self.old.playing.last self.old.line
            (piece.now ++ bytes))
            (due_after self.new.playing.plant self.new.playing.last self.new.line)
            taken result }
        ensures plant { self.new.playing.plant ≡ self.old.playing.plant }
        ensures short { length self.new.line ≤ longest_line }
    {
        match self.take_all(piece, link) {
            Ok(()) if taken < MOST_TAKEN => None,
            Ok(()) => Some(Ending::TooMany),
            Err(ending) => Some(limited(taken, ending)),
        }
    }

    // Takes some bytes.
    fn take_all<L: Link>(&mut self, piece: &[u8], link: &mut L) -> Result<(), Ending>
        requires { length self.old.line ≤ longest_line }
        ensures takes { Takes (L.state link.old) (L.state link.new)
            (λ bytes. due_after self.old.playing.plant self.old.playing.last self.old.line
            (piece.now ++ bytes))
            (due_after self.new.playing.plant self.new.playing.last self.new.line)
            result }
        ensures plant { self.new.playing.plant ≡ self.old.playing.plant }
        ensures short { length self.new.line ≤ longest_line }
    {
        for byte in piece {
            match self.take(*byte, link) {
                Ok(()) => {}
                Err(ending) => return Err(ending),
            }
        }
        Ok(())
    }

    // Takes a byte.
    fn take<L: Link>(&mut self, byte: u8, link: &mut L) -> Result<(), Ending>
        ensures takes { Takes (L.state link.old) (L.state link.new)
            (λ bytes. due_after self.old.playing.plant self.old.playing.last self.old.line
            (byte ∷ bytes))
            (due_after self.new.playing.plant self.new.playing.last self.new.line)
            result }
        ensures plant { self.new.playing.plant ≡ self.old.playing.plant }
        ensures short { length self.new.line ≤ longest_line }
    {
        if byte == b'\n' {
            return self.end_line(link);
        }
        match self.line.push(byte) {
            Ok(()) => Ok(()),
            Err(TooLong) => Err(Ending::TooLong),
        }
    }

    // Replies to the line that has ended.
    fn end_line<L: Link>(&mut self, link: &mut L) -> Result<(), Ending>
        ensures takes { Takes (L.state link.old) (L.state link.new)
            (λ bytes. IsDue self.old.playing.plant self.old.playing.last
            (line self.old.line (input_of [] bytes)))
            (due_after self.new.playing.plant self.new.playing.last self.new.line)
            result }
        ensures plant { self.new.playing.plant ≡ self.old.playing.plant }
        ensures short { length self.new.line ≤ longest_line }
    {
        let mut into = [0; 24];
        let Some(count) = reply(&mut self.playing, self.line.text(), &mut into) else {
            return Err(Ending::NoReply);
        };
        self.line.clear();
        send_line(&into[..count], link)
    }
}

// Sends a reply with its line feed.
fn send_line<L: Link>(reply: &[u8], link: &mut L) -> Result<(), Ending>
    requires { length reply.now ≤ 24 }
    ensures sends { SendsLine reply.now (L.state link.old) (L.state link.new) result }
{
    let mut text = [b'\n'; 25];
    text[..reply.len()].copy_from_slice(reply);
    match link.send(&text[..reply.len() + 1]) {
        Ok(()) => Ok(()),
        Err(Failed) => Err(Ending::Failed),
    }
}

// How a service ends after so many bytes, where it would end so.
fn limited(taken: u64, ending: Ending) -> Ending
    ensures { result ≡ limited_of taken ending }
{
    match ending {
        Ending::Failed => Ending::Failed,
        other if taken < MOST_TAKEN => other,
        _ => Ending::TooMany,
    }
}
