//! The home folders that the environment names.
ghost use Rattle.std.specs.Prelude.{◌≡◌, ◌↔◌, IfOk, None, Some, Err};
ghost use Rattle.deny_text.specs.Home.{cargo_home_of};

use crate::path::{PathBuf, join};
use crate::text::Text;
use std::alloc::{AllocError, Global};
use thiserror::Error;

/// The environment as the program read it: `HOME` and `CARGO_HOME`.
#[derive(Drop)]
pub struct HomeEnv {
    pub home: Option<Text>,
    pub cargo_home: Option<Text>,
}

/// Why there is no folder to name.
#[derive(Debug, Drop, Error)]
pub enum HomeError {
    #[error("no home folder")]
    NoHome,
    #[error("out of memory")]
    Memory,
}

impl From<AllocError> for HomeError {
    ghost use Rattle.deny_text.specs.declared.home.HomeError.TheVariants.{Memory};

    ghost from_gives = { λ _ error. error ≡ Memory };

    fn from(_error: AllocError) -> HomeError {
        HomeError::Memory
    }
}

/// The home folder, as the environment names it.
pub fn home(alloc: Global, env: &HomeEnv) -> Result<PathBuf, HomeError>
    ensures home { IfOk result (λ path. env.now.home ≡ Some path) }
    ensures no_home { (result ≡ Err HomeError.NoHome) ↔ (env.now.home ≡ None) }
{
    match &env.home {
        Some(home) => Ok(PathBuf::copy(alloc, home.as_str())?),
        None => Err(HomeError::NoHome),
    }
}

/// Cargo's home folder: a non-empty `cargo_home`, seen from `cwd`, or else `.cargo` in the home folder.
pub fn cargo_home(alloc: Global, env: &HomeEnv, cwd: &str) -> Result<PathBuf, HomeError>
    ensures home { IfOk result (λ path. cargo_home_of env.now.home env.now.cargo_home cwd.now ≡ Some path) }
    ensures no_home { (result ≡ Err HomeError.NoHome)
        ↔ (cargo_home_of env.now.home env.now.cargo_home cwd.now ≡ None) }
{
    match &env.cargo_home {
        Some(folder) if !folder.as_str().is_empty() => Ok(join(alloc, cwd, folder.as_str())?),
        _ => match &env.home {
            Some(home) => Ok(join(alloc, home.as_str(), ".cargo")?),
            None => Err(HomeError::NoHome),
        },
    }
}
