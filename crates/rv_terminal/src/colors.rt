//! When the standard streams get colours.
use rv_command::color::Color;
use std::env::{self, VarError};
use std::io::IsTerminal;

/// Which of the standard streams get colours.
#[derive(Clone, Copy)]
pub struct Colors {
    pub output: bool,
    pub errors: bool,
}

/// Whether the user wants colours, and the terminal shows them, by NO_COLOR and TERM.
fn are_wanted(rt: &HostRuntime) -> bool {
    let allows = match env::var(rt, "NO_COLOR") {
        Ok(text) => text.is_empty(),
        Err(VarError::NotPresent) => true,
        Err(_) => false,
    };
    let is_dumb = match env::var(rt, "TERM") {
        Ok(text) => text.as_str() == "dumb",
        Err(_) => false,
    };
    allows && !is_dumb
}

impl Colors {
    /// Those that are asked for.
    pub fn of(rt: &HostRuntime, asked: Color) -> Colors {
        match asked {
            Color::Always => Colors {
                output: true,
                errors: true,
            },
            Color::Never => Colors {
                output: false,
                errors: false,
            },
            Color::Auto => {
                let wanted = are_wanted(rt);
                Colors {
                    output: wanted && rt.stdout().is_terminal(),
                    errors: wanted && rt.stderr().is_terminal(),
                }
            }
        }
    }
}
