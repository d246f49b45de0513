//! The station as C functions: a static library over [`cam_station`].
//!
//! [`Session`](session::Session) carries the meaning: its methods are turns of a run and steps of the station's machine.
//! The exports look at the pointers that C passes, and call them; `include/camplot.h` is their page for C.
//!
//! A C program asks a station a question so, and copies the answer (`examples/c/page.c`):
//!
//! ```c
//! /* Asks a question, says its answer, and puts it into `answer` as a string; 0 where there is none or it does not fit. */
//! static int ask(camplot_station *station, const char *question, char *answer, size_t size) {
//!     *answer = 0;
//!     if (camplot_ask(station, (const uint8_t *)question, strlen(question)) != 0) return 0;
//!     size_t length = camplot_file(station, (uint8_t *)answer, size - 1);
//!     if (length >= size) return 0;
//!     answer[length] = 0;
//!     printf("%-32s %s", question, answer);
//!     return 1;
//! }
//! ```
#![tactic(auto)]

mod exports;
mod line;
mod loose;
mod session;
mod version;

pub use exports::Handle;
