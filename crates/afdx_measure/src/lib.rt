//! What an integrator asks of a run: how long frames took, and how full buffers were (profile).
//!
//! A [`Measuring`] switch notes on the way of each link how many copies a port sent, and their least and greatest delay, and how
//! full each port's buffer was, and when first; [`report`] has all of it as text.
//!
//! Contracts say what the numbers are of the lists of what was admitted, sent and discarded.
//!
//! # Example
//!
//! From `crates/afdx_run_tests/src/reports.rt`:
//!
//! ```
//! let table = read(rt.alloc(), single(rt.alloc())?.as_bytes())?;
//! let frame = record(rt.alloc(), small(10, 0)).ok_or("a record")?;
//! let mut switch = Measuring::new(rt.alloc(), table, Wanted::Measures)?;
//! let _step = switch.arrive(1, frame).ok().ok_or("an arrival")?;
//! let mut measured = switch.finish();
//! let mut capture = Vec::new(rt.alloc());
//! let _is_out = measured.next_out_into(2, &mut capture)?;
//! let measures = measured.into_measures().ok_or("measures")?;
//! let text = report(rt.alloc(), &measures, false)?;
//! assert_eq!(rt; text.as_str(), MEASURED);
//! ```
#![tactic(auto)]

mod delays;
mod filling;
mod gauges;
pub mod laws;
mod lines;
mod measuring;
mod policing;
mod reporting;

pub use delays::{Delays, Range};
pub use filling::Filling;
pub use lines::{put_link_line, put_peak_line};
pub use measuring::{Measured, Measures, Measuring, Survey, Wanted};
pub use reporting::{bound_at, peak_lines, policing_lines, report, survey};
