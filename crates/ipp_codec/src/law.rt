//! Laws of the grammar, as contracts of functions that do nothing.
ghost use Rattle.std.specs.Prelude.{◌≡◌, ◌++◌, ℕ, List};
ghost use Rattle.ipp_codec.specs.Message.{IppMessage};
ghost use Rattle.ipp_codec.specs.Spelling.{spelling};
ghost use Rattle.ipp_codec.specs.Grammar.{IsMessage};
ghost use Rattle.ipp_codec.specs.FirstFault.{FirstFault, PartFaultStays, FaultStays};
ghost use Rattle.ipp_codec.specs.declared.fault.CodecFault.{CodecFault};

/// Two spellings at the beginning of the same bytes are equal. Hence a message has one spelling, bytes spell at
/// most one message, and no spelling is the beginning of another.
pub fn one_spelling()
    ensures { (m k : IppMessage) (x y : List ℕ) → IsMessage m → IsMessage k → spelling m ++ x ≡ spelling k ++ y → (m ≡ k) × (x ≡ y) }
{}

/// Bytes have at most one first fault, and bytes with a first fault begin with no spelling.
pub fn one_first_fault()
    ensures one { (bytes : List ℕ) (f g : CodecFault) → FirstFault bytes f → FirstFault bytes g → f ≡ g }
    ensures no_spelling { (bytes : List ℕ) (f : CodecFault) (m : IppMessage) (y : List ℕ) → FirstFault bytes f → IsMessage m → bytes ≡ spelling m ++ y → ⊥ }
{}

/// The first fault of bytes stays the same with more bytes after them, unless bytes were missing. Such a
/// fault of a body that comes in chunks is therefore known at once.
pub fn fault_stays()
    ensures part { PartFaultStays }
    ensures bytes { FaultStays }
{}
