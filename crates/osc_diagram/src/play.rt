//! A script, done line by line for its diagram.
ghost use Rattle.std.specs.Prelude.{◌≡◌, IfOk, length};
ghost use Rattle.std.specs.FinMap as map;
ghost use Rattle.osc_simulation.specs.{CanPutAll};
ghost use Rattle.osc_diagram.specs.Scenes as spec;
ghost use Rattle.osc_diagram.specs.Runs.{IsPlayed};

use crate::Mark;
use crate::scene::{Scene, before_of, lose};
use osc_script::Line;
use osc_simulation::{Names, Stage, first_world};
use std::alloc::{AllocError, Global};

/// A script that was done: its clients and proxies, how far it came, the datagrams that were dropped and never came, by their numbers from
/// 0, and a scene for each line.
pub(crate) struct Played {
    pub names: Names,
    pub stage: Stage,
    pub lost: Vec<usize>,
    pub scenes: Vec<Scene>,
}

impl Drop for Played {
    fn drop(self) {
        let Played {
            names: _,
            stage: _,
            lost: _,
            scenes: _,
        } = self;
    }
}

/// Does these lines of a script.
pub(crate) fn play_lines(alloc: Global, lines: &[Line]) -> Result<Played, AllocError>
    requires { CanPutAll map.empty lines.now }
    ensures { IfOk result (IsPlayed lines.now) }
{
    let names = Names::of(alloc, lines)?;
    let world = first_world(alloc, &names, lines)?;
    let mut stage = Stage::first(world);
    let mut lost = Vec::new(alloc);
    let scenes = play_all(alloc, &mut stage, &mut lost, &names, lines)?;
    Ok(Played {
        names,
        stage,
        lost,
        scenes,
    })
}

fn play_all(
    alloc: Global,
    stage: &mut Stage,
    lost: &mut Vec<usize>,
    names: &Names,
    lines: &[Line],
) -> Result<Vec<Scene>, AllocError>
    ensures { IfOk result (λ scenes. spec.PlayAll names.now (record { stage = stage.old; lost = lost.old.items }) lines.now scenes.items
        (record { stage = stage.new; lost = lost.new.items })) }
{
    let mut scenes = Vec::new(alloc);
    for line in lines {
        let scene = play(alloc, stage, lost, names, line)?;
        scenes.push(scene)?;
    }
    Ok(scenes)
}

// Does a line.
fn play(
    alloc: Global,
    stage: &mut Stage,
    lost: &mut Vec<usize>,
    names: &Names,
    line: &Line,
) -> Result<Scene, AllocError>
    ensures { IfOk result (λ scene. spec.Plays names.now (record { stage = stage.old; lost = lost.old.items }) line.now scene
        (record { stage = stage.new; lost = lost.new.items })) }
{
    let before = before_of(alloc, stage, lost, names, line)?;
    let first = count_events(stage);
    lose(alloc, lost, stage.world().sent(), line)?;
    let _quiet = stage.does(alloc, names, line)?;
    Ok(scene_with(stage, before, first))
}

fn scene_with(stage: &Stage, before: Option<Mark>, first: usize) -> Scene
    ensures { result ≡ record { before = before; moment = stage.now.moment; first = first; end = length stage.now.world.records } }
{
    Scene {
        before,
        moment: stage.moment,
        first,
        end: count_events(stage),
    }
}

// How many events there were.
fn count_events(stage: &Stage) -> usize
    ensures { result ≡ length stage.now.world.records }
{
    stage.world().records().len()
}
