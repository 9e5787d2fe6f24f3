//! The front of an entry's line: its time and the event word.
ghost use Rattle.std.specs.Prelude.{◌≡◌, ◌≤◌, length, true};
ghost use Rattle.sleep_model.specs.Fits.{fits_word, is_word64};
ghost use Rattle.log_words.specs.Front.{front_text};

use crate::number_text::NumberText;
use crate::short::ShortText;
use sleep_model::EventNow;

/// The front of an entry's line, its moment and the word, stored since lines in a row often share it.
#[derive(Drop)]
pub struct LineFront {
    time: u64,
    word: EventNow,
    count: NumberText,
    hard: NumberText,
    text: ShortText,
    ghost count_is: { count.number ≡ word.count },
    ghost hard_is: { hard.number ≡ word.hard },
    ghost spelled: { text ≡ front_text time word },
}

impl LineFront {
    /// The front of lines at the beginning, when nothing was registered.
    pub fn start() -> Self {
        let word = EventNow {
            inpr: 0,
            count: 0,
            hard: 0,
        };
        let (count, hard) = (NumberText::of(0), NumberText::of(0));
        let mut text = ShortText::of(b"");
        text.set_front(0, word.inpr, &count, &hard);
        LineFront {
            time: 0,
            word,
            count,
            hard,
            text,
        }
    }

    /// Goes on to that moment, in ms, and that word.
    #[inline(always)]
    pub fn move_to(&mut self, time: u64, word: EventNow)
        ensures time { self.new.time ≡ time }
        ensures word { self.new.word ≡ word }
    {
        if self.time != time || self.word != word {
            self.respell(time, word);
        }
    }

    /// Spells this front.
    #[inline(never)]
    fn respell(&mut self, time: u64, word: EventNow)
        ensures time { self.new.time ≡ time }
        ensures word { self.new.word ≡ word }
    {
        self.count.move_to(word.count);
        self.hard.move_to(word.hard);
        self.text
            .set_front(time, word.inpr, &self.count, &self.hard);
        self.time = time;
        self.word = word;
    }

    /// Its moment, in ms.
    #[inline(always)]
    pub fn time(&self) -> u64
        ensures time { result ≡ self.now.time }
        ensures fits { is_word64 result ≡ true }
    {
        self.time
    }

    /// Its word.
    #[inline(always)]
    pub fn word(&self) -> EventNow
        ensures word { result ≡ self.now.word }
        ensures fits { fits_word result ≡ true }
    {
        word_of(self.word.inpr, self.word.count, self.word.hard)
    }

    /// Its text.
    #[inline(always)]
    pub fn text(&self) -> &ShortText
        ensures { result.now ≡ front_text self.now.time self.now.word }
    {
        &self.text
    }
}

/// The word of these numbers, each of which its type keeps in range.
#[inline(always)]
fn word_of(inpr: u32, count: u32, hard: u32) -> EventNow
    ensures word { result ≡ record { inpr = inpr; count = count; hard = hard } }
    ensures fits { fits_word result ≡ true }
{
    EventNow { inpr, count, hard }
}
