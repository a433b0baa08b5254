// The player that plays a script line by line.
use crate::instruction::Instruction;
use crate::life::Life;
use crate::played_zone::{Outcome, STRIP_PLACES, Strips};
use crate::reading::instruction_in;
use crate::shown::Shown;
use at_once::settled::MOST_LINES;
use book::lines::Line;
use bounded_lines::LONGEST_LINE;
use refusal::Refusal;
use std::alloc::{AllocError, Global};
use std::io;
use std::io::Write;

/// The life that is played, if one has begun, the strips, and where it prints.
#[derive(Drop)]
pub struct Player<W> {
    heap: Global,
    life: Option<Life>,
    strips: Strips,
    output: W,
}

impl<W: Write + Drop> Player<W> {
    pub(crate) fn new(heap: Global, output: W) -> Result<Player<W>, AllocError> {
        Ok(Player {
            heap,
            life: None,
            strips: Strips {
                bill: vec![in heap; Line::BLANK; STRIP_PLACES]?,
                credits: vec![in heap; Line::BLANK; MOST_LINES]?,
            },
            output,
        })
    }

    // Plays a line. A blank line and a comment say nothing; a line that cannot be read changes nothing.
    pub(crate) fn take(&mut self, line: &[u8]) -> io::Result<()> {
        let Some(line) = text_of(line) else {
            return writeln!(self.output, "UNREADABLE");
        };
        let words: Vec<&str> = line.split_whitespace().collect(self.heap)?;
        if words.first().is_none_or(|word| word.starts_with('#')) {
            return Ok(());
        }
        match (instruction_in(words.as_slice()), &mut self.life) {
            (Some(Instruction::Life), _) => self.begin(line),
            (Some(Instruction::Setting(setting)), Some(life)) => Ok(life.set(setting)?),
            (Some(Instruction::Call(call)), Some(life)) => {
                let outcome = life.play(&mut self.strips, call);
                writeln!(self.output, "> {line}")?;
                print_outcome(&mut self.output, &self.strips, outcome)
            }
            _ => writeln!(self.output, "UNREADABLE"),
        }
    }

    // Closes the life before, and begins another.
    fn begin(&mut self, line: &str) -> io::Result<()> {
        self.close()?;
        self.life = Some(Life::new(self.heap));
        writeln!(self.output, "{line}")
    }

    // Prints what the life comes to.
    fn close(&mut self) -> io::Result<()> {
        let Some(life) = &self.life else {
            return Ok(());
        };
        let played = &life.played;
        let figures = played.figures();
        let operators = played.roll.iter().take(figures.operators);
        let objects = played.register.iter().take(figures.objects);
        for shown in operators
            .map(Shown::Operator)
            .chain(objects.map(Shown::Object))
        {
            writeln!(self.output, "{shown}")?;
        }
        writeln!(self.output, "{played}")
    }

    // Closes the last life, and writes what is not yet written.
    pub(crate) fn finish(mut self) -> io::Result<()> {
        self.close()?;
        self.output.flush()
    }
}

// The text of a line without the carriage return at its end. A line that is too long, or no text, has none.
fn text_of(line: &[u8]) -> Option<&str> {
    if line.len() > LONGEST_LINE {
        return None;
    }
    std::str::from_utf8(line.strip_suffix(b"\r").unwrap_or(line)).ok()
}

fn print_outcome<W: Write>(output: &mut W, strips: &Strips, outcome: Outcome) -> io::Result<()> {
    match outcome {
        Outcome::NotTaken => writeln!(output, "NOT TAKEN"),
        Outcome::Refused(refusal) => print_refusal(output, refusal),
        Outcome::Done {
            billed,
            turned_down,
            credited,
        } => {
            print_lines(output, strips.bill.as_slice(), billed)?;
            if let Some(refusal) = turned_down {
                print_refusal(output, refusal)?;
            }
            print_lines(output, strips.credits.as_slice(), credited)
        }
    }
}

fn print_refusal<W: Write>(output: &mut W, refusal: Refusal) -> io::Result<()> {
    let shown = Shown::Refused(refusal);
    writeln!(output, "{shown}")
}

// The first lines of a strip.
fn print_lines<W: Write>(output: &mut W, strip: &[Line], lines: usize) -> io::Result<()> {
    for shown in strip.iter().take(lines).map(Shown::Written) {
        writeln!(output, "{shown}")?;
    }
    Ok(())
}
