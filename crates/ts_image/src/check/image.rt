//! Tests an image for contradictions, except for its settings, which are tested when they are created. Does not
//! allocate.
ghost use Rattle.std.specs.Prelude.{◌↔◌, IsTrue};
ghost use Rattle.std.specs.List.{AllByRecursion};
ghost use Rattle.ts_image.specs.Images.{ImageSeries};
ghost use Rattle.ts_image.specs.ImageTests.{AreImageSettings, IsPossible};
ghost use Rattle.ts_image.specs.RuleParts.{settings_of_parts};
ghost use Rattle.ts_image.specs.ImageReading.{image_of};
ghost use Rattle.ts_image.specs.TestParts.{HasLongInterval, IsSmall, AreSeriesPossible, AreRulesPossible};

use crate::check::counts::subtract_series;
use crate::check::rules::{are_all_cells, are_counted, are_lows};
use crate::check::series::{are_series, are_series_rising, is_time};
use crate::read::image::ImageParts;
use crate::version::Version;
use std::alloc::Allocator;
use ts_core::MAX_COUNT;

fn is_small<A: Allocator>(parts: &ImageParts<A>) -> bool
    ensures { IsTrue result ↔ IsSmall (image_of parts.now) }
{
    if !is_time(&parts.marks.raw) {
        return false;
    }
    parts.runs <= 1 && parts.series.len() <= 1_000_000 && parts.accepted <= MAX_COUNT
}

fn are_series_possible<A: Allocator>(parts: &ImageParts<A>) -> bool
    ensures { IsTrue result ↔ AreSeriesPossible (image_of parts.now) }
{
    if !are_series(&parts.marks.raw, parts.runs, &parts.series) {
        return false;
    }
    if !are_series_rising(&parts.series) {
        return false;
    }
    subtract_series(parts.accepted, &parts.series).is_some()
}

fn are_rules_possible<A: Allocator>(version: Version, parts: &ImageParts<A>) -> bool
    requires { AllByRecursion HasLongInterval parts.now.settings.rules.items }
    ensures { IsTrue result ↔ AreRulesPossible version (image_of parts.now) }
{
    let rules = &parts.settings.rules;
    if !are_lows(version, &parts.marks.raw, rules, &parts.marks.lows) {
        return false;
    }
    if parts.cells.len() != rules.len() {
        return false;
    }
    if !are_all_cells(&parts.marks.raw, rules, &parts.marks.lows, &parts.cells) {
        return false;
    }
    are_counted(parts.accepted, &parts.series, rules, &parts.cells)
}

/// Returns true if an image with possible settings is possible.
pub(crate) fn is_rest_possible<A: Allocator>(version: Version, parts: &ImageParts<A>) -> bool
    requires settings { AreImageSettings (settings_of_parts parts.now.settings) }
    requires long { AllByRecursion HasLongInterval parts.now.settings.rules.items }
    ensures { IsTrue result ↔ IsPossible version (image_of parts.now) }
{
    if !is_small(parts) {
        return false;
    }
    if !are_series_possible(parts) {
        return false;
    }
    are_rules_possible(version, parts)
}
