ghost use Rattle.std.specs.Prelude.{◌≡◌};
ghost use Rattle.script.specs.Orders.{follows};

use crate::line::Line;
use crate::reader::Stage;

impl Stage {
    // The stage after a line, where the line may stand here.
    pub fn after(self, line: Line) -> Option<Stage>
        ensures { result ≡ follows self line }
    {
        match (self, line) {
            (Stage::Start, Line::Link(_)) => Some(Stage::Marks { floor: 0, count: 0 }),
            (Stage::Marks { floor, count }, Line::Damage(k)) if k as u32 >= floor && count < 64 => {
                Some(Stage::Marks {
                    floor: k as u32 + 1,
                    count: count + 1,
                })
            }
            (Stage::Marks { .. } | Stage::Turns, Line::Send { .. } | Line::Reset { .. }) => {
                Some(Stage::Turns)
            }
            _ => None,
        }
    }
}
