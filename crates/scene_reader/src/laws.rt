//! What is true of all scenes: the contracts of functions that do nothing.
ghost use Rattle.std.specs.Prelude.{◌≡◌, ℕ, ◌≤◌, List, true, Err, IfOk};
ghost use Rattle.std.specs.Int.{IsNextPowerOfTwo};
ghost use Rattle.std.specs.Str.Lines.{lines};
ghost use Rattle.trace_reader.specs.declared.traces.Defect.{Defect};
ghost use Rattle.scene_reader.specs.Grammar.{scene, scene_of_lines};
ghost use Rattle.scene_reader.specs.Items.{is_texture_side, least_power};
ghost use Rattle.scene_reader.specs.Laws.{IsFirstDefect};
ghost use Rattle.scene_reader.specs.Scenes.{IsScene};

/// The defective line is the first: the lines before it are a scene, if there are any, and what follows it changes nothing.
pub fn a_defect_is_the_first()
    ensures lines { (ls : List (List ℕ)) (d : Defect) → scene_of_lines ls ≡ Err d → IsFirstDefect ls d }
    ensures bytes { (b : List ℕ) (d : Defect) → scene b ≡ Err d → IsFirstDefect (lines b) d }
{}

/// What bytes spell is a scene: its sides and its items are such as the sides and the items of each scene are.
pub fn what_is_spelled_is_a_scene()
    ensures { (b : List ℕ) → IfOk (scene b) IsScene }
{}

/// A smooth part is made on a texture whose sides are the least powers of two that aren't below its own, and which a texture may have.
pub fn a_smooth_part_has_the_least_texture()
    ensures least { (n : ℕ) → n ≤ 1024 → IsNextPowerOfTwo n (least_power n) }
    ensures side { (n : ℕ) → is_texture_side (least_power n) ≡ true }
{}
