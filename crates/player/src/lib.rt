// Owns the playing of a script of any length from standard input.
#![tactic(auto)]

ghost use Rattle.std.specs.Prelude.{◌≡◌, false, length};

use output::{Output, fail, large_buffer};
use play::{Mode, Run};
use script::NUMBERS;
use std::io::Read;

// How playing ended.
#[derive(Clone, Copy)]
pub struct Ended {
    // How many bytes still wait to be written.
    pub waiting: usize,
    // Has reading or writing failed?
    pub failed: bool,
}

// A run, the numbers of its line, the halfwords that wait, and its output.
#[derive(Drop)]
struct Player<'a> {
    run: Run,
    given: [u32; NUMBERS],
    bus: [u16; 4096],
    output: Output<'a>,
}

impl<'a> Player<'a> {
    // The line under way has ended.
    fn end_line(&mut self, rt: &(impl Print + Eprint)) {
        self.run
            .ended(rt, &mut self.given, &mut self.bus, &mut self.output);
    }

    // Plays the input, which may begin and end within a line. The line under way is a local, which the compiler keeps in registers.
    fn play_all(&mut self, rt: &(impl Print + Eprint), input: &[u8]) {
        let mut line = self.run.line;
        for &byte in input {
            if byte == b'\n' {
                self.run.line = line;
                self.end_line(rt);
                if self.run.over {
                    return;
                }
                line = self.run.line;
            } else {
                line.note(byte, &mut self.given);
                line = line.take(byte);
            }
        }
        self.run.line = line;
    }

    // Reads once, plays what came and writes what waits then. Where nothing more can be read, the line under way is not played.
    fn turn(&mut self, rt: &(impl Input + Print + Eprint)) {
        let mut input = large_buffer();
        match rt.reader().read(&mut input) {
            Ok(0) => self.run.stop(),
            Ok(n) => {
                self.play_all(rt, &input[..n]);
                self.output.flush(rt);
                if self.output.failed {
                    self.run.stop();
                }
            }
            Err(why) => {
                self.output.failed = fail(rt, "read", why);
                self.run.stop();
            }
        }
    }

    // A proved loop has to end, and nothing says that a script does. So the loop counts its turns, up to a number that no run reaches.
    fn turns(&mut self, rt: &(impl Input + Print + Eprint)) {
        for _ in 0..u64::MAX {
            self.turn(rt);
            if self.run.over {
                return;
            }
        }
    }

    // Plays all of it.
    fn play(&mut self, rt: &(impl Input + Print + Eprint))
        ensures { self.new.output.failed ≡ false → self.new.output.waiting ≡ 0 }
    {
        self.turns(rt);
        if !self.output.failed {
            // A last line without a line feed counts. After a tape's end none is under way.
            self.end_line(rt);
            self.run.finished(rt, &mut self.output);
            self.output.flush(rt);
        }
    }
}

// Room for the halfwords that wait.
fn no_halfwords() -> [u16; 4096]
    ensures { 4096 ≡ length result }
{
    [0; 4096]
}

// Plays all of it. Unless reading or writing has failed, nothing waits to be written at the end.
pub fn play_script(rt: &(impl Input + Print + Eprint), mode: Mode) -> Ended
    ensures { result.failed ≡ false → result.waiting ≡ 0 }
{
    let mut buffer = large_buffer();
    let mut player = Player {
        run: play::start(mode),
        given: [0; NUMBERS],
        bus: no_halfwords(),
        output: Output::new(&mut buffer),
    };
    player.play(rt);
    Ended {
        waiting: player.output.waiting,
        failed: player.output.failed,
    }
}
