//! Calls of the library within blocks.
ghost use Rattle.std.specs.Prelude.{◌≡◌};
ghost use Rattle.std.specs.List.{list_all};
ghost use Rattle.analysis_preconditions.specs.Objects.Sites as spec;

use cfg::{BasicBlock, Flow, Instruction, Operation};

/// Whether a call that allocates has a site.
fn has_site(operation: &Operation) -> bool
    ensures { result ≡ spec.has_site operation.now }
{
    match operation {
        Operation::Library(_, name, _, site, _) => !name.signature().allocates || site.is_some(),
        _ => true,
    }
}

/// Whether an operation is no call of `fgets` within a block.
fn reads_no_line(operation: &Operation) -> bool
    ensures { result ≡ spec.reads_no_line operation.now }
{
    match operation {
        Operation::Library(_, name, _, _, _) => !name.signature().reads_line,
        _ => true,
    }
}

fn have_sites(instructions: &[Instruction]) -> bool
    ensures { result ≡ list_all (λ i. spec.has_site i.operation) instructions.now }
{
    instructions.iter().all(|one| has_site(&one.operation))
}

fn blocks_have_sites(blocks: &[BasicBlock]) -> bool
    ensures { result ≡ list_all (λ b. list_all (λ i. spec.has_site i.operation) b.instructions.items) blocks.now }
{
    blocks
        .iter()
        .all(|block| have_sites(block.instructions.as_slice()))
}

/// Whether each call that allocates has a site.
pub fn has_sites(flow: &Flow) -> bool
    ensures { result ≡ spec.has_sites flow.now }
{
    blocks_have_sites(flow.blocks.as_slice())
}

fn read_no_line(instructions: &[Instruction]) -> bool
    ensures { result ≡ list_all (λ i. spec.reads_no_line i.operation) instructions.now }
{
    instructions.iter().all(|one| reads_no_line(&one.operation))
}

fn blocks_read_no_line(blocks: &[BasicBlock]) -> bool
    ensures { result ≡ list_all (λ b. list_all (λ i. spec.reads_no_line i.operation) b.instructions.items) blocks.now }
{
    blocks
        .iter()
        .all(|block| read_no_line(block.instructions.as_slice()))
}

/// Whether each call of `fgets` ends its block.
pub fn ends_with_lines(flow: &Flow) -> bool
    ensures { result ≡ spec.ends_with_lines flow.now }
{
    blocks_read_no_line(flow.blocks.as_slice())
}
