//! The kinds of bases.
ghost use Rattle.std.specs.Prelude.{◌≡◌};
ghost use Rattle.cfg.specs.WellFormed as spec;

use c_layout::{BaseInfo, BaseKind};

/// The kind of a base, where there is one of this number.
fn kind_at(bases: &[BaseInfo], base: usize) -> Option<BaseKind>
    ensures { result ≡ spec.kind_at bases.now base }
{
    match bases.get(base) {
        Some(info) => Some(info.kind),
        None => None,
    }
}

/// Whether a base is an object or a literal that the unit declares.
pub fn is_declared(bases: &[BaseInfo], base: u32) -> bool
    ensures { result ≡ spec.is_declared (spec.kind_at bases.now base) }
{
    match kind_at(bases, base as usize) {
        Some(BaseKind::Static) => true,
        Some(BaseKind::Automatic) => true,
        Some(BaseKind::Literal) => true,
        Some(BaseKind::Newest) => false,
        Some(BaseKind::Older) => false,
        None => false,
    }
}

/// Whether a base is an object of a block.
pub fn is_automatic(bases: &[BaseInfo], base: u32) -> bool
    ensures { result ≡ spec.is_automatic (spec.kind_at bases.now base) }
{
    match kind_at(bases, base as usize) {
        Some(BaseKind::Automatic) => true,
        _ => false,
    }
}

/// Whether a base has its bytes before the run begins.
pub fn is_initial(bases: &[BaseInfo], base: u32) -> bool
    ensures { result ≡ spec.is_initial (spec.kind_at bases.now base) }
{
    match kind_at(bases, base as usize) {
        Some(BaseKind::Static) => true,
        Some(BaseKind::Literal) => true,
        Some(BaseKind::Automatic) => false,
        Some(BaseKind::Newest) => false,
        Some(BaseKind::Older) => false,
        None => false,
    }
}

fn is_newest(bases: &[BaseInfo], base: usize) -> bool
    ensures { result ≡ spec.is_newest (spec.kind_at bases.now base) }
{
    match kind_at(bases, base) {
        Some(BaseKind::Newest) => true,
        _ => false,
    }
}

fn is_older(bases: &[BaseInfo], base: usize) -> bool
    ensures { result ≡ spec.is_older (spec.kind_at bases.now base) }
{
    match kind_at(bases, base) {
        Some(BaseKind::Older) => true,
        _ => false,
    }
}

/// Whether a base that may be given is the newest one of a site of allocations, with the older one
/// behind it.
pub fn is_site(bases: &[BaseInfo], site: Option<u32>) -> bool
    ensures { result ≡ spec.is_site bases.now site }
{
    match site {
        None => true,
        Some(base) => is_newest(bases, base as usize) && is_older(bases, base as usize + 1),
    }
}
