// Numbers that look random: 32 bits that are shifted and xored.
ghost use Rattle.std.specs.Prelude.{◌<◌};

#[derive(Clone, Copy)]
pub struct Dice {
    pub bits: u32,
}

impl Dice {
    pub fn next(&mut self) -> u32 {
        self.bits ^= self.bits << 13;
        self.bits ^= self.bits >> 17;
        self.bits ^= self.bits << 5;
        self.bits
    }

    // A number below that many sides.
    pub fn roll(&mut self, sides: u32) -> u32
        requires { 0 < sides }
        ensures { result < sides }
    {
        self.next() % sides
    }

    // A place in a list of that length.
    pub fn place(&mut self, length: usize) -> usize
        requires { 0 < length }
        ensures { result < length }
    {
        self.next() as usize % length
    }
}
