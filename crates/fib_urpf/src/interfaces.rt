// A set of interfaces.
ghost use Rattle.std.specs.Prelude.{◌≡◌, ◌↔◌, ◌<◌, ◌==◌, ◌||◌, ℕ, false, IsTrue};
ghost use Rattle.fib_urpf.specs.Interfaces.{has};
ghost use Rattle.fib_urpf.specs.declared.interfaces.Interfaces.{Interfaces as InterfacesValue};

/// A set of interfaces, of which there are at most 256.
#[derive(Clone, Copy, PartialEq, Eq, Debug)]
pub struct Interfaces {
    low: u128,
    high: u128,
}

impl Interfaces {
    /// No interface.
    #[tactic(auto, using(crate::proofs::Bits::none_has))]
    pub fn none() -> Interfaces
        ensures { (i : ℕ) → has result i ≡ false }
    {
        Interfaces { low: 0, high: 0 }
    }

    /// This interface alone.
    #[tactic(auto, using(crate::proofs::Bits::one_low, crate::proofs::Bits::one_high))]
    pub fn one(interface: u32) -> Interfaces
        requires { interface < 256 }
        ensures { (i : ℕ) → has result i ≡ (interface == i) }
    {
        if interface < 128 {
            Interfaces {
                low: 1 << interface,
                high: 0,
            }
        } else {
            Interfaces {
                low: 0,
                high: 1 << (interface - 128),
            }
        }
    }

    /// This interface alone, where it is one of the 256; else none.
    #[tactic(auto, using(crate::proofs::Gathered::past_all))]
    pub fn of(interface: u32) -> Interfaces
        ensures { (i : ℕ) → i < 256 → has result i ≡ (interface == i) }
    {
        if interface < 256 {
            Interfaces::one(interface)
        } else {
            Interfaces::none()
        }
    }

    /// Those of both.
    #[tactic(auto, using(crate::proofs::Bits::both_has))]
    pub fn with(self, other: Interfaces) -> Interfaces
        ensures { (i : ℕ) → has result i ≡ has self i || has other i }
    {
        Interfaces {
            low: self.low | other.low,
            high: self.high | other.high,
        }
    }

    /// Whether the interface is one of them.
    #[tactic(auto, using(crate::proofs::Bits::low_has, crate::proofs::Bits::high_has))]
    pub fn has(self, interface: u32) -> bool
        requires { interface < 256 }
        ensures { result ≡ has self interface }
    {
        if interface < 128 {
            (self.low >> interface) & 1 == 1
        } else {
            (self.high >> (interface - 128)) & 1 == 1
        }
    }

    /// Whether there is none.
    #[tactic(auto, using(crate::proofs::Bits::none_has, crate::proofs::Bits::some_low, crate::proofs::Bits::some_high))]
    pub fn is_empty(self) -> bool
        ensures none { result ≡ Rattle.std.specs.Prelude.true → (i : ℕ) → has self i ≡ false }
        ensures some { result ≡ false → (i : ℕ) × (i < 256) × (has self i ≡ Rattle.std.specs.Prelude.true) }
    {
        let Interfaces { low, high } = self;
        if low != 0 {
            return false;
        }
        high == 0
    }

    /// Whether both are the same set.
    #[tactic(auto, using(crate::proofs::Bits::same_members))]
    pub fn is_same(self, other: Interfaces) -> bool
        ensures same { result ≡ Rattle.std.specs.Prelude.true → self ≡ other }
        ensures other { result ≡ false → ((i : ℕ) → i < 256 → has self i ≡ has other i) → ⊥ }
    {
        let Interfaces { low, high } = self;
        let Interfaces {
            low: other_low,
            high: other_high,
        } = other;
        if low != other_low {
            return false;
        }
        high == other_high
    }
}
