ghost use Rattle.of_format.specs.Reading.{ReadsBack};

/// The text of a cell in a base reads as the cell in this base, unsigned and signed.
#[tactic(auto, using(crate::proofs::ReadingBack::texts_read_back))]
pub fn texts_read_back()
    ensures { ReadsBack }
{}
