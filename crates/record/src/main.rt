// Plays a script of any length from standard input, and writes the tape of its slots (TAPES.md) to standard output.
#![tactic(auto)]

use play::Mode;

fn main(rt: HostRuntime) {
    player::play_script(&rt, Mode::Tape);
}
