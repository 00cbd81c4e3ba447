// One point answered after the other.
ghost use Rattle.std.specs.Prelude.{length};
ghost use Rattle.many_points.specs.PointByPoint.{PointsFit, FirstStand};
ghost use Rattle.query_answer.specs.PointsAndModes.{QueryFits};
ghost use Rattle.query_answer.specs.AnswerByWay.{AnswerAmong};

use many_points::store_answer;
use query_answer::ways::Way;

// The answer at each point by one way, on axes of these points, with a mode's number for each. Not a public call: what refusals 1 to 4
// leave is required.
pub fn answer_each(
    way: Way,
    axes: usize,
    points: &[usize],
    modes: &[u8],
    knots: &[f64],
    tensor: &[f64],
    coordinates: &[f64],
    values: &mut [f64],
    labels: &mut [usize],
    refusals: &mut [usize],
)
    requires { PointsFit (QueryFits axes points.now modes.now knots.now tensor.now) axes coordinates.now values.old
        labels.old (length refusals.old) }
    ensures { FirstStand (AnswerAmong way axes points.now modes.now knots.now tensor.now) axes
        coordinates.now (length refusals.old) (length refusals.old) values.new
        labels.new refusals.new }
{
    let count = refusals.len();
    let mut begin = 0;
    for j in 0..count {
        let end = begin + axes;
        let given = query_answer::answer(
            way,
            axes,
            points,
            modes,
            knots,
            tensor,
            &coordinates[begin..end],
        );
        store_answer(values, labels, refusals, j, given);
        begin = end;
    }
}
