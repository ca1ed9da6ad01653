// What every refusal says, in whichever layer it arose.
ghost use Rattle.std.specs.Prelude.{◌≡◌, ℕ, List};
ghost use Rattle.layer.specs.declared.Layer.{Layer};

use crate::Layer;

// A reason to refuse. Each layer's own enum is one, and prints itself as its `Line`: Display can't be implemented for every refusal at once.
pub trait Refusal {
    ghost number_of: { Self → ℕ };

    ghost place_of: { Self → ℕ };

    ghost layer_of: { Self → Layer };

    ghost reason_of: { Self → List ℕ };

    // The refusal's number.
    fn number(&self) -> u8
        ensures { result ≡ number_of self.now };

    // The place in the frame that it names, or 0.
    fn place(&self) -> u8
        ensures { result ≡ place_of self.now };

    // The layer where it arose.
    fn layer(&self) -> Layer
        ensures { result ≡ layer_of self.now };

    // Why, in plain words.
    fn reason(&self) -> &'static str
        ensures { result.now ≡ reason_of self.now };
}
