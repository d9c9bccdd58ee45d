//! The worked rows of the program, as tests over a tree and a sink in memory.
#![tactic(auto)]

#[cfg(test)]
mod call;
#[cfg(test)]
mod certificate_rows;
#[cfg(test)]
mod command_rows;
#[cfg(test)]
mod devices;
#[cfg(test)]
mod division_rows;
#[cfg(test)]
mod gate_rows;
#[cfg(test)]
mod heap_rows;
#[cfg(test)]
mod limit_rows;
#[cfg(test)]
mod literal_rows;
#[cfg(test)]
mod load_rows;
#[cfg(test)]
mod memory_rows;
#[cfg(test)]
mod preprocessing_rows;
#[cfg(test)]
mod program_rows;
#[cfg(test)]
mod refusal_rows;
#[cfg(test)]
mod sarif_rows;
#[cfg(test)]
mod size_rows;
#[cfg(test)]
mod string_rows;
#[cfg(test)]
mod turn_rows;
#[cfg(test)]
mod word_rows;
