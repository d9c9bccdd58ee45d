//! The map that the text of a certificate gives, line by line.

mod block_reading;
mod cell_places;
mod cell_reading;
mod greatest_rows;
mod map_reading;
mod text_places;

pub use cell_reading::Reading;
pub use greatest_rows::{cert_list, greatest_row};
pub use map_reading::{is_whole, read_map};
pub use text_places::line_number;
