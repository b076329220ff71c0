// Owns a program's output: bytes that wait in a lent buffer, and are written to standard output before they fill it.
#![tactic(auto)]

ghost use Rattle.std.specs.Prelude.{◌≤◌, ◌≡◌, true, false, length};
ghost use Rattle.output.specs.Waiting.{Emptied, Roomy};

use std::io;
use text::Text;

// Bytes on their way to standard output. By `lent` in the contracts the buffer stays the one that was lent, so that its lender knows what stands in it.
#[derive(Drop)]
pub struct Output<'a> {
    pub buffer: &'a mut [u8],
    // How many bytes wait, from the buffer's first place on.
    pub waiting: usize,
    // Has reading or writing failed? Then nothing more is written.
    pub failed: bool,
}

// 65,536 zeros, to read or write much in one call.
pub fn large_buffer() -> [u8; 65536]
    ensures { 65536 ≡ length result }
{
    [0; 65536]
}

// Says on standard error what failed, and why. The answer is what `failed` is from then on.
pub fn fail(rt: &impl Eprint, what: &str, why: io::Error) -> bool
    ensures { result ≡ true }
{
    let _ = eprintln!(rt; "{what}: {why}");
    true
}

impl<'a> Output<'a> {
    pub fn new(buffer: &'a mut [u8]) -> Output<'a>
        ensures empty { (result.waiting ≡ 0) × (result.failed ≡ false) × (result.buffer.now ≡ buffer.old) }
        ensures lent { result.buffer.ghost_name ≡ buffer.entry.ghost_name }
    {
        Output {
            buffer,
            waiting: 0,
            failed: false,
        }
    }

    // Writes the bytes that wait, and answers whether that failed.
    fn write(&self, rt: &(impl Print + Eprint)) -> bool {
        let waiting = self.waiting.min(self.buffer.len());
        match rt.write_all(&self.buffer[..waiting]) {
            Ok(()) => false,
            Err(why) => fail(rt, "write", why),
        }
    }

    // Writes what waits. Where that fails, nothing more is written.
    pub fn flush(&mut self, rt: &(impl Print + Eprint))
        ensures emptied { Emptied self.old self.new }
        ensures kept { self.new.buffer.now ≡ self.old.buffer.now }
        ensures lent { self.new.buffer.ghost_name ≡ self.old.buffer.ghost_name }
    {
        if self.failed {
            return;
        }
        self.failed = self.write(rt);
        self.waiting = 0;
    }

    // Writes what waits where fewer than `needed` places are left behind it.
    #[tactic(auto, using(crate::proofs::Laws::kept_none, crate::proofs::Laws::kept_all))]
    pub fn make_room(&mut self, rt: &(impl Print + Eprint), needed: usize)
        ensures roomy { Roomy self.old needed self.new }
        ensures kept { self.new.buffer.now ≡ self.old.buffer.now }
        ensures lent { self.new.buffer.ghost_name ≡ self.old.buffer.ghost_name }
    {
        let room = self.buffer.len();
        if room < self.waiting || room - self.waiting < needed {
            self.flush(rt);
        }
    }

    // Puts a text behind the bytes that wait, as far as there is room.
    pub fn put(&mut self, text: Text)
        requires { self.old.waiting ≤ length self.old.buffer.now }
        ensures waiting { (self.old.waiting ≤ self.new.waiting) × (self.new.waiting ≤ length self.old.buffer.now) }
        ensures len { length self.new.buffer.now ≡ length self.old.buffer.now }
        ensures lent { self.new.buffer.ghost_name ≡ self.old.buffer.ghost_name }
        ensures failed { self.new.failed ≡ self.old.failed }
    {
        let from = self.waiting;
        let end = from + text.count.min(64).min(self.buffer.len() - from);
        self.buffer[from..end].copy_from_slice(&text.bytes[..end - from]);
        self.waiting = end;
    }

    // Puts a text behind what waits, and writes that first where there is no room for a text's 64 bytes.
    pub fn say(&mut self, rt: &(impl Print + Eprint), text: Text)
        ensures waiting { self.new.waiting ≤ length self.old.buffer.now }
        ensures len { length self.new.buffer.now ≡ length self.old.buffer.now }
        ensures lent { self.new.buffer.ghost_name ≡ self.old.buffer.ghost_name }
    {
        self.make_room(rt, 64);
        self.waiting = self.waiting.min(self.buffer.len());
        self.put(text);
    }
}
