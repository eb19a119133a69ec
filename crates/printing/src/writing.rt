// A writer over a lent run of bytes: words, numbers and lines, one after the other.
ghost use Rattle.std.specs.Prelude.{◌≡◌, [], ◌∷◌, ◌++◌, ◌+◌, ◌*◌, ◌<◌, ◌≤◌, length};
ghost use Rattle.rules.specs.Sizes.{most_number, most_calls};
ghost use Rattle.rules.specs.Answers.{value_of};
ghost use Rattle.rules.specs.Refusals.{number_of};
ghost use Rattle.lines.specs.Bytes.{line_feed};
ghost use Rattle.lines.specs.Decimals.{digits_of};
ghost use Rattle.printing.specs.Outputs.{answer_line, answer_lines, refusal_line};
ghost use Rattle.printing.specs.Writers.{Fit, Wrote, longest_line, longest_refusal, answers_in, answers_of};

use itoa::Buffer;
use lists::ANSWER_WIDTH;
use rules::{Answer, Numbered, Refusal};

const LINE_FEED: u8 = b'\n';

// The run, and the place after what was written.
// No `fmt::Write`: that answers a Result, and writing cannot fail here, as each caller proves that what it writes fits.
#[derive(Drop)]
pub struct Writer<'a> {
    pub out: &'a mut [u8],
    pub at: usize,
}

impl Writer<'_> {
    #[tactic(auto, using(crate::proofs::Written::byte_put))]
    fn put_byte(&mut self, byte: u8)
        requires { Fit self.old (byte ∷ []) }
        ensures { Wrote self.old (byte ∷ []) self.new }
    {
        self.out[self.at] = byte;
        self.at += 1;
    }

    fn put_word(&mut self, word: &[u8])
        requires { Fit self.old word.now }
        ensures { Wrote self.old word.now self.new }
    {
        let end = self.at + word.len();
        self.out[self.at..end].copy_from_slice(word);
        self.at = end;
    }

    // The decimal digits of a number.
    #[tactic(auto, using(crate::proofs::Widths::digits_decimal))]
    fn put_number(&mut self, n: u64)
        requires { Fit self.old (digits_of n) }
        ensures { Wrote self.old (digits_of n) self.new }
    {
        self.put_word(Buffer::new().format(n).as_bytes());
    }

    // A word, the number after it and the end of the line.
    fn put_last(&mut self, word: &[u8], n: u64)
        requires { Fit self.old (word.now ++ (digits_of n ++ (line_feed ∷ []))) }
        ensures { Wrote self.old (word.now ++ (digits_of n ++ (line_feed ∷ []))) self.new }
    {
        self.put_word(word);
        self.put_number(n);
        self.put_byte(LINE_FEED);
    }

    // The line of the answer to call i.
    fn put_answer(&mut self, i: usize, answer: Answer)
        requires { Fit self.old (answer_line i answer) }
        ensures { Wrote self.old (answer_line i answer) self.new }
    {
        self.put_number(i as u64);
        match answer {
            Answer::Nothing => self.put_word(b"\tnothing\n"),
            Answer::Figure(figure) => self.put_last(b"\tfigure\t", figure as u64),
            Answer::Yes => self.put_word(b"\tyes\n"),
            Answer::No => self.put_word(b"\tno\n"),
            Answer::Refused(refusal) => self.put_last(b"\trefused\t", refusal as u64),
        }
    }

    // The line of a refused text.
    pub fn put_refusal(&mut self, refusal: Refusal, offset: usize)
        requires { self.old.at + longest_refusal ≤ length self.old.out.now }
        ensures { Wrote self.old (refusal_line (number_of refusal) offset) self.new }
    {
        self.put_word(b"refused\t");
        self.put_number(u64::from(refusal.number()));
        self.put_last(b"\t", offset as u64);
    }

    // The lines of every answer, two numbers each.
    pub fn put_answers(&mut self, numbers: &[u32])
        requires few { answers_in numbers.now ≤ most_calls }
        requires room { self.old.at + answers_in numbers.now * longest_line ≤ length self.old.out.now }
        ensures { Wrote self.old (answer_lines 0 (answers_of numbers.now)) self.new }
    {
        let (pairs, _) = numbers.as_chunks::<ANSWER_WIDTH>();
        for (i, &[kind, value]) in pairs.iter().enumerate() {
            self.put_answer(i, Numbered { kind, value }.into());
        }
    }
}
