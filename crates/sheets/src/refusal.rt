use sites::Refusal;

/// Why a sheet was refused, and where: the place of the first offending word, counted from 0, or of the
/// first word of a fan; the first suspect set as a mask where a route or a fan is missing; else 0.
// One number for all three: it is answered to hosts beside the refusal's number.
#[derive(Clone, Copy, PartialEq, Eq, Debug)]
pub struct SheetRefusal {
    pub refusal: Refusal,
    pub place: usize,
}
