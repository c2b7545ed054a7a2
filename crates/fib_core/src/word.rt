// What a cell of an object says, and its code.
ghost use Rattle.std.specs.Prelude.{◌≡◌};
ghost use Rattle.fib_core.specs.Words.{IsRoomy, IsWord, decoded, encoded};

/// What a cell says. Each object has sixteen cells, numbered from 0.
///
/// The cells of a ply say where an address goes by its next four bits, those of a balance where a packet goes by its flow hash; the first
/// three of an adjacency are its interface, its next hop, and 0 or one more than the hardware address.
#[derive(Clone, Copy, Debug, PartialEq, Eq)]
pub enum Word {
    /// The packet ends here: it is dropped.
    Drop,
    /// The packet is for the router itself.
    Receive,
    /// The packet's next hop on that interface is its own destination, whose hardware address isn't known yet.
    Glean(u32),
    /// An edge to the ply in that object: the address's next four bits decide.
    ToPly(u32),
    /// An edge to the balance in that object: the flow hash decides.
    ToBalance(u32),
    /// An edge to the adjacency in that object.
    ToAdjacency(u32),
    /// A number below 2^56, which is what an adjacency's cells hold.
    Plain(u64),
}

impl Word {
    /// The word as the 64 bits of its cell: its tag, 0 to 6 in the order of the variants, in the upper 8 bits, and its value in the lower 56.
    ///
    /// A `Plain` number must be below 2^56. What it gives is decoded to the same word.
    #[tactic(auto, using(crate::proofs::Numbers::decoded_encoded), unfolding(crate::specs::Words::encoded))]
    pub fn encode(self) -> u64
        requires { IsRoomy self }
        ensures code { result ≡ encoded self }
        ensures read_back { decoded result ≡ self }
    {
        match self {
            Word::Drop => 0,
            Word::Receive => 0x0100_0000_0000_0000,
            Word::Glean(interface) => 0x0200_0000_0000_0000 + interface as u64,
            Word::ToPly(object) => 0x0300_0000_0000_0000 + object as u64,
            Word::ToBalance(object) => 0x0400_0000_0000_0000 + object as u64,
            Word::ToAdjacency(object) => 0x0500_0000_0000_0000 + object as u64,
            Word::Plain(number) => 0x0600_0000_0000_0000 + number,
        }
    }

    /// The word that these 64 bits code. They must be the code of one, as all bits are that lie in a cell.
    #[inline(always)]
    #[tactic(auto, using(crate::proofs::Numbers::number_cases), unfolding(crate::specs::Words::decoded))]
    pub fn decode(word: u64) -> Word
        requires { IsWord word }
        ensures { result ≡ decoded word }
    {
        let value = word % 0x0100_0000_0000_0000;
        match word / 0x0100_0000_0000_0000 {
            3 => Word::ToPly(value as u32),
            4 => Word::ToBalance(value as u32),
            5 => Word::ToAdjacency(value as u32),
            2 => Word::Glean(value as u32),
            0 => Word::Drop,
            1 => Word::Receive,
            _ => Word::Plain(value),
        }
    }
}
