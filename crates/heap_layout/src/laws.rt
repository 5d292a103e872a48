//! Laws of the image format. Each is the contract of a function that does nothing.
ghost use Rattle.heap_layout.specs.Encoding.{CausesExclude, AcceptedIsTaken, ImagesDiffer};

/// No bytes are refused for two reasons, and the image of an accepted heap is refused for none. So the bytes alone
/// determine which fault `read_image` answers, except for running out of memory and failing devices.
pub fn causes_exclude()
    ensures one_cause { CausesExclude }
    ensures none_where_accepted { AcceptedIsTaken }
{}

/// Two heaps that have the same image are the same heap, if their numbers fit the fields of an image.
pub fn images_differ()
    ensures { ImagesDiffer }
{}
