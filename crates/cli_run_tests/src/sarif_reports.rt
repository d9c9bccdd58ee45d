//! Rows of SARIF reports, of baselines and of what is fresh, as tests.

#[cfg(test)]
mod baseline_rows;
#[cfg(test)]
mod fresh_rows;
#[cfg(test)]
mod report_rows;
#[cfg(test)]
mod results;
