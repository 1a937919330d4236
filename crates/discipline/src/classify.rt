// What a classifier says of a frame.
ghost use Rattle.std.specs.Prelude.{◌≡◌, ℕ, Bool, List, length};

use altq_model::Placed;

/// Says in which class a frame belongs, and with which bytes it departs. Neither call takes memory.
pub trait Classify {
    ghost use Rattle.altq_model.specs.declared.Placed.{Placed};

    /// Where it puts a frame, by its bytes.
    ghost placed: { Self → List ℕ → Placed };

    /// The bytes with which a frame departs from a class, marked or not.
    ghost dressed: { Self → (class : ℕ) → (marked : Bool) → List ℕ → List ℕ };

    /// The class and the precedence of a frame, by its captured bytes: the same of the same bytes.
    fn class(&self, frame: &[u8]) -> Placed
        ensures { result ≡ placed self.now frame.now };

    /// Gives a frame the bytes with which it departs from a class, marked where its queue marked it.
    fn dress(&self, class: u32, marked: bool, frame: &mut [u8])
        ensures { frame.new ≡ dressed self.now class marked frame.old };

    /// No frame changes its length.
    ghost lengths: { (c : Self) (class : ℕ) (marked : Bool) (frame : List ℕ) → length (dressed c class marked frame) ≡ length frame };
}
