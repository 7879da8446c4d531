//! What a configuration makes of agnostic elements (version 1.0 of the vector extension, section 3.4.3).
ghost use Rattle.std.specs.Prelude.{◌≡◌, ◌&&◌};
ghost use Rattle.rvv_meaning.specs.Elementwise.{is_ones};

use vtype_cfg::{Cfg, Policy};

/// The policy leaves all ones in agnostic elements.
pub fn makes_ones(cfg: &Cfg) -> bool
    ensures { result ≡ is_ones cfg.now.policy }
{
    match cfg.policy {
        Policy::Keep => false,
        Policy::Ones => true,
    }
}

/// Elements that are masked off become all ones.
pub fn fills_masked(cfg: &Cfg) -> bool
    ensures { result ≡ (is_ones cfg.now.policy && cfg.now.vtype.vma) }
{
    makes_ones(cfg) && cfg.vtype.vma
}
