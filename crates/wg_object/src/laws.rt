//! What holds of the texts of objects.

ghost use Rattle.wg_object.specs.Depth.{TextLaw};

/// Bytes are the text of one object at most.
pub fn text_law()
    ensures { TextLaw }
{}
