// Plays the lives of a script: what each call of a zone answers and writes, and what every life comes to. The lines of a
// script are described in tools/life_model.py, which prints the same.
#![tactic(auto)]

mod instruction;
mod life;
mod played_zone;
mod player;
mod reading;
mod shown;

use bounded_lines::next_line;
use player::Player;
use std::alloc::Global;
use std::io::{Read, Write};
use std::process::ExitCode;
use streams::ending::ended;
use streams::failure::Failure;
use streams::pieces::{read_in_pieces, written_in_pieces};

// Plays the lines of an input.
fn play<R: Read + Drop, W: Write + Drop>(heap: Global, input: R, output: W) -> Result<(), Failure> {
    let mut input = read_in_pieces(heap, input)?;
    let mut player = Player::new(heap, written_in_pieces(heap, output)?)?;
    for _ in 0..u64::MAX {
        let Some(line) = next_line(heap, &mut input).map_err(Failure::input)? else {
            break;
        };
        player.take(line.as_slice()).map_err(Failure::output)?;
    }
    player.finish().map_err(Failure::output)
}

fn main(rt: HostRuntime) -> ExitCode {
    ended(&rt, play(rt.alloc(), rt.stdin(), rt.stdout()))
}
