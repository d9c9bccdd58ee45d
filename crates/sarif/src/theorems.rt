//! What is written is read back.
ghost use Rattle.std.specs.Prelude.{◌≡◌, ◌<◌, [], List, All, Some, map};
ghost use Rattle.cc_base.specs.declared.diagnostics.Diag.{Diag};
ghost use Rattle.sarif.specs.Uris.{Bytes, uri_of, uri_bytes};
ghost use Rattle.sarif.specs.Reports.{sarif_of};
ghost use Rattle.sarif.specs.Baselines.{baseline_read};
ghost use Rattle.sarif.specs.Comparing.{fresh_of};
ghost use Rattle.sarif.specs.Laws.{IsName, IsCounted, IsOfList, known_result};

/// The uri of a name stands for the name.
pub fn uris_are_read_back()
    ensures { (name : Bytes) → All (λ b. b < 256) name → uri_bytes (uri_of name) ≡ Some name }
{}

/// Where lines and columns are at least 1, the report on diagnostics says that exactly they are known, in their order.
pub fn reports_are_read_back()
    ensures { (names : List Bytes) (diags : List Diag) → All IsName names → All IsCounted diags
        → baseline_read (sarif_of names diags) ≡ Some (map (known_result names) diags) }
{}

/// Behind the report of diagnostics whose files are of the list, none of them is fresh.
pub fn reports_hold_their_diagnostics()
    ensures { (names : List Bytes) (diags : List Diag) → All (IsOfList names) diags
        → fresh_of names (map (known_result names) diags) diags ≡ [] }
{}
